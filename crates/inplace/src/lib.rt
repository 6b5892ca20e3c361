// The chip stepped where it stands. Assumes nothing.
#![tactic(auto)]

ghost use Rattle.std.specs.Prelude.{◌≡◌};
ghost use Rattle.chip.specs.Chip.{stepped};

use answers::Answer;
use chip::{Chip, Stepped};

// A sample on a chip that stands where the caller keeps it: the chip after it stands there, and its answer is returned.
pub fn step_in_place(chip: &mut Chip, sample: u8) -> Answer
    ensures { (chip.new ≡ (stepped chip.old sample).chip)
        × (result ≡ (stepped chip.old sample).answer) }
{
    let done = chip.step(sample);
    *chip = done.chip;
    done.answer
}

// A sample on a chip by value, which is lent to `step_in_place` and handed back: for whoever keeps no chip of its own.
pub fn step_by_lending(chip: Chip, sample: u8) -> Stepped
    ensures { result ≡ stepped chip sample }
{
    let mut standing = chip;
    let answer = step_in_place(&mut standing, sample);
    Stepped {
        chip: standing,
        answer,
    }
}
