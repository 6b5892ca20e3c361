// The settings read from a state record's bytes, 40 to 63. What coded bytes come to is taken apart by `let .. else` and not by `?`: that is
// the form that the pack has for it. Assumes nothing.
#![tactic(auto)]

ghost use Rattle.std.specs.Prelude.{◌≡◌, length};
ghost use Rattle.ground.specs.Ranges.{up_to};
ghost use Rattle.ground.specs.Sizes.{record_length};
ghost use Rattle.settings.specs.Bytes.{scan_fits, settings_in_range, settings_of, selections_read, settings_read};

mod codes; // codes.rt: coded bytes, each read to a case

use clock::{BaseCounter, Counters, Divider, Prescaler, Scan, Timer, Toner, Watchdog};
use ground::{Part, RECORD_LENGTH};
use settings::{Base, Irq, Lcd, SETTINGS_AT, Selections, Settings, System, Tone, offsets};

// How many bytes the settings have in a record.
const LENGTH: usize = RECORD_LENGTH - SETTINGS_AT;

// The most that each of the settings' bytes can be.
const MAXIMA: [u8; LENGTH] = [
    1, // 40 system
    2, // 41 source
    1, // 42 LCD
    3, // 43 bias
    4, // 44 commons
    1, // 45 tone
    4, // 46 its frequency
    1, // 47 IRQ output
    7, // 48 rate
    1, // 49 time base
    2, // 50 IRQ source
    1, // 51 flag
    (clock::PRESCALER_SIZE - 1) as u8, // 52 p
    (clock::TONER_SIZE - 1) as u8, // 53 q
    (clock::DIVIDER_SIZE - 1) as u8, // 54 d
    (clock::BASE_SIZE - 1) as u8, // 55 b
    (clock::WATCHDOG_SIZE - 1) as u8, // 56 w
    1, // 57 test
    1, // 58 part
    255, // 59 the scan's counter, which goes by the part: `scan_fits`
    255, // 60 the common scanned, which goes by the commons: likewise
    0, // 61 to 63 zero
    0,
    0,
];

// Whether the common that is scanned is one of those in force, and the scan's counter one of the part's. Asked of the bytes as they
// stand, before the part and the commons are read: `settings_in_range` asks it so.
#[tactic(auto, unfolding(settings::specs::Bytes::scan_fits))]
fn scan_fits(part: u8, commons: u8, counter: u8, common: u8) -> bool
    ensures { result ≡ scan_fits part commons counter common }
{
    if commons <= common {
        return false;
    }
    if part == 1 {
        return (counter as u32) < clock::GN_SCAN_SIZE;
    }
    (counter as u32) < clock::HT_SCAN_SIZE
}

// Whether each byte is at most its maximum.
fn within(bytes: &[u8], most: &[u8]) -> bool
    ensures { result ≡ up_to bytes.now most.now }
{
    bytes
        .iter()
        .zip(most.iter())
        .all(|(byte, most)| *byte <= *most)
}

// Whether each of a record's bytes 40 to 63 is in range. Apart from `settings_from`, which is then small enough to be put into its
// callers.
pub fn in_range(bytes: &[u8]) -> bool
    ensures { result ≡ settings_in_range bytes.now }
{
    if bytes.len() != RECORD_LENGTH {
        return false;
    }
    within(&bytes[SETTINGS_AT..], &MAXIMA)
        && scan_fits(
            bytes[offsets::PART],
            bytes[offsets::COMMONS],
            bytes[offsets::SCAN],
            bytes[offsets::COMMON],
        )
}

// The selections, if each is one of its cases. That the bytes are a record's is asked of the caller, here and in `counters_of`: an array
// of 64 would first have to be cut from the slice, whose length is tested all the same.
#[tactic(auto, using(settings::proofs::BytesLaws::selections_by))]
fn selections_in(bytes: &[u8]) -> Option<Selections>
    requires { length bytes.now ≡ record_length }
    ensures { result ≡ selections_read bytes.now }
{
    let Some(source) = codes::source_of(bytes[offsets::SOURCE]) else {
        return None;
    };
    let Some(bias) = codes::bias_of(bytes[offsets::BIAS]) else {
        return None;
    };
    let Some(commons) = codes::commons_of(bytes[offsets::COMMONS]) else {
        return None;
    };
    let Some(pitch) = codes::pitch_of(bytes[offsets::PITCH]) else {
        return None;
    };
    let Some(irq) = codes::irq_source_of(bytes[offsets::IRQ_SOURCE]) else {
        return None;
    };
    Some(Selections {
        source,
        bias,
        commons,
        pitch,
        irq,
    })
}

// Bytes 51 to 56.
fn counters_of(bytes: &[u8]) -> Counters
    requires { length bytes.now ≡ record_length }
    ensures { result ≡ (settings_of bytes.now).counters }
{
    Counters {
        prescaler: Prescaler {
            count: bytes[offsets::P],
        },
        toner: Toner {
            count: bytes[offsets::Q],
        },
        timer: Timer {
            divider: Divider {
                count: bytes[offsets::D],
            },
            base: BaseCounter {
                count: bytes[offsets::B],
            },
            watchdog: Watchdog {
                count: bytes[offsets::W],
                flag: bytes[offsets::FLAG] == 1,
            },
        },
    }
}

// The settings that a record's bytes 40 to 57 say, if each selection is one of its cases, with a scan and a part that were read before:
// with these two in it, it would not be put into its callers.
#[tactic(auto, using(settings::proofs::BytesLaws::settings_by))]
pub fn settings_from(bytes: &[u8], scan: Scan, part: Part) -> Option<Settings>
    ensures { result ≡ settings_read bytes.now scan part }
{
    if bytes.len() != RECORD_LENGTH {
        return None;
    }
    let found = selections_in(bytes)?;
    Some(Settings {
        system: System {
            on: bytes[offsets::SYSTEM] == 1,
            source: found.source,
        },
        lcd: Lcd {
            on: bytes[offsets::LCD] == 1,
            bias: found.bias,
            commons: found.commons,
        },
        tone: Tone {
            on: bytes[offsets::TONE] == 1,
            pitch: found.pitch,
        },
        irq: Irq {
            on: bytes[offsets::IRQ] == 1,
            source: found.irq,
        },
        base: Base {
            on: bytes[offsets::TIME_BASE] == 1,
            rate: bytes[offsets::RATE],
        },
        counters: counters_of(bytes),
        test: bytes[offsets::TEST] == 1,
        scan,
        part,
    })
}
