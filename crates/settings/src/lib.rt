// The settings: the switches and selections that commands set, with the counters, and the part that they are of; and all of them as
// bytes of a state record, 40 to 63. Assumes nothing.
#![tactic(auto)]

ghost use Rattle.std.specs.Prelude.{◌≡◌};
ghost use Rattle.ground.specs.Outcomes.{written_as};
ghost use Rattle.settings.specs.Numbers.{pitch_number, irq_source_number};
ghost use Rattle.settings.specs.Bytes.{settings_over, counters_over};

pub mod offsets; // offsets.rt: where each byte stands

use clock::{Counters, Scan, Source};
use commands::{Bias, Commons};
use ground::{Part, RECORD_LENGTH, Refusal};

// Where a record has the settings' bytes, and where among them the counters begin.
pub const SETTINGS_AT: usize = ground::ADDRESSES + 8;

pub const COUNTERS_AT: usize = SETTINGS_AT + 11;

// The system oscillator.
#[derive(Clone, Copy)]
pub struct System {
    pub on: bool,
    pub source: Source,
}

#[derive(Clone, Copy)]
pub struct Lcd {
    pub on: bool,
    pub bias: Bias,
    pub commons: Commons,
}

// The tone's frequency: 4 kHz or 2 kHz.
#[derive(Clone, Copy)]
pub enum Pitch {
    FourK,
    TwoK,
}

#[derive(Clone, Copy)]
pub struct Tone {
    pub on: bool,
    pub pitch: Pitch,
}

// What can pull IRQ low.
#[derive(Clone, Copy)]
pub enum IrqSource {
    Neither,
    TimeBase,
    Flag,
}

// The IRQ output's switch, and its source.
#[derive(Clone, Copy)]
pub struct Irq {
    pub on: bool,
    pub source: IrqSource,
}

// The time base's switch and its rate r, F1 (0) to F128 (7).
#[derive(Clone, Copy)]
pub struct Base {
    pub on: bool,
    pub rate: u8,
}

// All that commands and ticks can change, and the part, which they cannot.
#[derive(Clone, Copy)]
pub struct Settings {
    pub system: System,
    pub lcd: Lcd,
    pub tone: Tone,
    pub irq: Irq,
    pub base: Base,
    pub counters: Counters,
    pub test: bool,
    pub scan: Scan,
    pub part: Part,
}

// What the coded bytes of the settings say.
#[derive(Clone, Copy)]
pub struct Selections {
    pub source: Source,
    pub bias: Bias,
    pub commons: Commons,
    pub pitch: Pitch,
    pub irq: IrqSource,
}

impl From<Pitch> for u8 {
    ghost from_gives = { λ pitch number. number ≡ pitch_number pitch };

    // Its number in the state record: its kHz.
    fn from(pitch: Pitch) -> u8
        ensures { result ≡ pitch_number pitch }
    {
        match pitch {
            Pitch::FourK => 4,
            Pitch::TwoK => 2,
        }
    }
}

impl From<IrqSource> for u8 {
    ghost from_gives = { λ source number. number ≡ irq_source_number source };

    // Its number in the state record.
    fn from(source: IrqSource) -> u8
        ensures { result ≡ irq_source_number source }
    {
        match source {
            IrqSource::Neither => 0,
            IrqSource::TimeBase => 1,
            IrqSource::Flag => 2,
        }
    }
}

// Of a record that a buffer holds, the settings' bytes from the counters on, 51 to 63: for a chip of which no other byte has changed.
#[tactic(auto, unfolding(ground::specs::Outcomes::written_as, crate::specs::Bytes::counters_over))]
pub fn write_counters(settings: Settings, out: &mut [u8]) -> Result<usize, Refusal>
    ensures { (result ≡ written_as 13 out.old) × (out.new ≡ counters_over settings out.old) }
{
    if out.len() < RECORD_LENGTH {
        return Err(Refusal::OutputShort);
    }
    let counters = settings.counters;
    out[offsets::FLAG] = counters.timer.watchdog.flag as u8;
    out[offsets::P] = counters.prescaler.count;
    out[offsets::Q] = counters.toner.count;
    out[offsets::D] = counters.timer.divider.count;
    out[offsets::B] = counters.timer.base.count;
    out[offsets::W] = counters.timer.watchdog.count;
    out[offsets::TEST] = settings.test as u8;
    out[offsets::PART] = u8::from(settings.part);
    out[offsets::SCAN] = settings.scan.count;
    out[offsets::COMMON] = settings.scan.common;
    out[offsets::SPARE_1] = 0;
    out[offsets::SPARE_2] = 0;
    out[offsets::SPARE_3] = 0;
    Ok(13)
}

// Of a record that a buffer holds, the settings' bytes alone, 40 to 63.
#[tactic(auto, unfolding(ground::specs::Outcomes::written_as, crate::specs::Bytes::settings_over))]
pub fn write_settings(settings: Settings, out: &mut [u8]) -> Result<usize, Refusal>
    ensures { (result ≡ written_as 24 out.old) × (out.new ≡ settings_over settings out.old) }
{
    if out.len() < RECORD_LENGTH {
        return Err(Refusal::OutputShort);
    }
    out[offsets::SYSTEM] = settings.system.on as u8;
    out[offsets::SOURCE] = u8::from(settings.system.source);
    out[offsets::LCD] = settings.lcd.on as u8;
    out[offsets::BIAS] = u8::from(settings.lcd.bias);
    out[offsets::COMMONS] = u8::from(settings.lcd.commons);
    out[offsets::TONE] = settings.tone.on as u8;
    out[offsets::PITCH] = u8::from(settings.tone.pitch);
    out[offsets::IRQ] = settings.irq.on as u8;
    out[offsets::RATE] = settings.base.rate;
    out[offsets::TIME_BASE] = settings.base.on as u8;
    out[offsets::IRQ_SOURCE] = u8::from(settings.irq.source);
    write_counters(settings, out)?;
    Ok(24)
}
