// The four lines: a sample's levels, and what a sample is to a frame by the levels before and after it. Assumes nothing.
#![tactic(auto)]

ghost use Rattle.std.specs.Prelude.{◌≡◌};
ghost use Rattle.lines.specs.Samples.{levels, levels_number, rose, clocked, edge};

// The levels of the four lines.
#[derive(Clone, Copy)]
pub struct Levels {
    pub cs: bool,
    pub wr: bool,
    pub rd: bool,
    pub bit: bool, // DATA
}

// What a sample is to the frame, by the levels before and after it.
#[derive(Clone, Copy)]
pub enum Edge {
    Rests,
    Closes,
    Opens,
    Clashes,
    Takes(bool),
    Offers,
    Quiet,
}

impl From<Levels> for u8 {
    ghost from_gives = { λ levels number. number ≡ levels_number levels };

    // The sample that has these levels.
    fn from(levels: Levels) -> u8
        ensures { result ≡ levels_number levels }
    {
        (levels.cs as u8) + 2 * (levels.wr as u8) + 4 * (levels.rd as u8) + 8 * (levels.bit as u8)
    }
}

impl From<u8> for Levels {
    ghost from_gives = { λ sample result. result ≡ levels sample };

    // The levels that a sample's number stands for. Only its lowest four bits count.
    fn from(sample: u8) -> Levels
        ensures { result ≡ levels sample }
    {
        Levels {
            cs: sample % 2 == 1,
            wr: sample / 2 % 2 == 1,
            rd: sample / 4 % 2 == 1,
            bit: sample / 8 % 2 == 1,
        }
    }
}

// Whether a line was low and is high.
fn rises(before: bool, after: bool) -> bool
    ensures { result ≡ rose before after }
{
    !before && after
}

// What the clocks do while CS is low.
fn clocked_by(rise: bool, fall: bool, bit: bool) -> Edge
    ensures { result ≡ clocked rise fall bit }
{
    match (rise, fall) {
        (true, true) => Edge::Clashes,
        (true, false) => Edge::Takes(bit),
        (false, true) => Edge::Offers,
        (false, false) => Edge::Quiet,
    }
}

// What a sample is to the frame: CS decides first, and the clocks count only where it stays low.
pub fn edge_of(before: Levels, after: Levels) -> Edge
    ensures { result ≡ edge before after }
{
    match (before.cs, after.cs) {
        (true, true) => Edge::Rests,
        (false, true) => Edge::Closes,
        (true, false) => Edge::Opens,
        (false, false) => {
            let rise = rises(before.wr, after.wr);
            let fall = rises(after.rd, before.rd);
            clocked_by(rise, fall, after.bit)
        }
    }
}
