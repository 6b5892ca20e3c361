// What the pins of a chip show: IRQ, BZ and its partner, DATA and the cells. Assumes nothing.
#![tactic(auto)]

ghost use Rattle.std.specs.Prelude.{◌≡◌, map};
ghost use Rattle.std.specs.Int.Bits.{bit_and};
ghost use Rattle.pins.specs.Pins.{asserted, wave, sounding, irq_low, bz_high, partner_high, shown_nibble, pins_shown};

use chip::Chip;
use clock::Timer;
use commands::Commons;
use ground::ADDRESSES;
use phases::Line;
use settings::{IrqSource, Pitch, Settings};

// What the pins show: IRQ, BZ and its partner, DATA, and for each address the cells that show, bit c for common c.
#[derive(Clone, Copy)]
pub struct Pins {
    pub irq: bool, // low
    pub bz: bool, // high
    pub partner: bool, // high
    pub line: Line,
    pub cells: [u8; ADDRESSES],
}

// Whether a source asks for IRQ.
fn asserted_by(source: IrqSource, timer: Timer) -> bool
    ensures { result ≡ asserted source timer }
{
    match source {
        IrqSource::Neither => false,
        IrqSource::TimeBase => 128 <= timer.base.count,
        IrqSource::Flag => timer.watchdog.flag,
    }
}

// Whether the IRQ pin is pulled low; otherwise it floats.
#[tactic(auto, unfolding(crate::specs::Pins::irq_low))]
pub fn irq_low(settings: Settings) -> bool
    ensures { result ≡ irq_low settings }
{
    settings.irq.on && asserted_by(settings.irq.source, settings.counters.timer)
}

// Whether there is a tone.
#[tactic(auto, unfolding(crate::specs::Pins::sounding))]
fn is_sounding(settings: Settings) -> bool
    ensures { result ≡ sounding settings }
{
    ticks::running(settings) && settings.tone.on
}

// The tone's level by its phase.
fn wave_of(pitch: Pitch, phase: u8) -> bool
    ensures { result ≡ wave pitch phase }
{
    match pitch {
        Pitch::FourK => 4 <= phase % 8,
        Pitch::TwoK => 8 <= phase,
    }
}

// Whether the BZ pin is high.
#[tactic(auto, unfolding(crate::specs::Pins::bz_high))]
pub fn bz_high(settings: Settings) -> bool
    ensures { result ≡ bz_high settings }
{
    is_sounding(settings) && wave_of(settings.tone.pitch, settings.counters.toner.count)
}

// Whether BZ's partner is high: the opposite of BZ while there is a tone.
#[tactic(auto, unfolding(crate::specs::Pins::partner_high, crate::specs::Pins::bz_high))]
pub fn partner_high(settings: Settings) -> bool
    ensures { result ≡ partner_high settings }
{
    is_sounding(settings) && !bz_high(settings)
}

// The cells of an address that would show with all four bits set: whatever stands there, the cells that show are its
// bits under this mask.
#[tactic(auto, unfolding(crate::specs::Pins::shown_nibble, crate::specs::Pins::shows))]
pub fn shown_mask(settings: Settings) -> u8
    ensures { result ≡ shown_nibble settings 15 }
{
    if !ticks::running(settings) || !settings.lcd.on {
        return 0;
    }
    match settings.lcd.commons {
        Commons::Two => 3,
        Commons::Three => 7,
        Commons::Four => 15,
    }
}

// Each nibble under a mask. By their index: with `map` of the array `pins_of` takes six times as long (tried), and of `iter_mut` a proof
// knows no element.
fn under_mask(memory: [u8; ADDRESSES], mask: u8) -> [u8; ADDRESSES]
    ensures { result ≡ map (λ n. bit_and n mask) memory }
{
    let mut cells = memory;
    for i in 0..ADDRESSES {
        cells[i] = memory[i] & mask;
    }
    cells
}

// What the pins show.
#[tactic(auto, unfolding(crate::specs::Pins::pins_shown), using(crate::proofs::PinsLaws::shown_under_mask))]
pub fn pins_of(chip: Chip) -> Pins
    ensures { result ≡ pins_shown chip }
{
    Pins {
        irq: irq_low(chip.settings),
        bz: bz_high(chip.settings),
        partner: partner_high(chip.settings),
        line: chip.port.line,
        cells: under_mask(chip.port.memory, shown_mask(chip.settings)),
    }
}
