// Power-on of a chip. Assumes nothing.
#![tactic(auto)]

ghost use Rattle.std.specs.Prelude.{◌≡◌};
ghost use Rattle.power.specs.PowerOn.{fresh_chip, empty_chip, powered_on};

use chip::Chip;
use ground::{ADDRESSES, Part, Refusal};
use lines::Levels;
use phases::{Line, Phase};
use port::Port;

// A chip of a part that has just been powered on with this memory.
fn fresh(part: Part, memory: [u8; ADDRESSES]) -> Chip
    ensures { result ≡ fresh_chip part memory }
{
    Chip {
        port: Port {
            memory,
            levels: Levels::from(15),
            phase: Phase::Idle,
            line: Line::Released,
        },
        settings: rules::at_power_on(part),
    }
}

// An HT1621 at power-on with an empty memory: where a listing begins.
#[tactic(auto, unfolding(crate::specs::PowerOn::empty_chip))]
pub fn empty() -> Chip
    ensures { result ≡ empty_chip }
{
    fresh(Part::Ht, [0u8; ADDRESSES])
}

// A chip at power-on, of the part with this number and with 32 nibbles for its memory. Refused, in this order: a part that is none;
// a memory that is not 32 values; a value above 15, with its place.
pub fn power_on(number: usize, memory: &[u8]) -> Result<Chip, Refusal>
    ensures { result ≡ powered_on number memory.now }
{
    let part = ground::part_of(number).ok_or(Refusal::UnknownPart)?;
    let miscounted = memory.len() != ADDRESSES;
    if miscounted {
        return Err(Refusal::MemoryCount);
    }
    if let Some(place) = ground::first_above(memory, 15) {
        return Err(Refusal::NibbleAbove(place));
    }
    Ok(fresh(part, ground::memory_from(memory)))
}
