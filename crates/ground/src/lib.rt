// What every crate above shares: sizes; the parts, and the refusals, with their numbers; what a call that writes bytes comes to; what
// it means that a contract determines its result; bits and bytes written over a buffer; and how one computed test becomes a
// law. Assumes nothing.
#![tactic(auto)]

ghost use Rattle.std.specs.Prelude.{◌≡◌, ltb, position};
ghost use Rattle.ground.specs.Written.{memory_from};
ghost use Rattle.ground.specs.Parts.{part_number, part_read};
ghost use Rattle.ground.specs.Refusals.{refusal_number, refusal_place};

// How many addresses the memory has, and how many bytes a state record.
pub const ADDRESSES: usize = 32;

pub const RECORD_LENGTH: usize = 64;

// Which chip it is: an HT1621 or a GN1621.
#[derive(Clone, Copy)]
pub enum Part {
    Ht,
    Gn,
}

impl From<Part> for u8 {
    ghost from_gives = { λ part number. number ≡ part_number part };

    // Its number, which callers give and the state record has.
    fn from(part: Part) -> u8
        ensures { result ≡ part_number part }
    {
        match part {
            Part::Ht => 0,
            Part::Gn => 1,
        }
    }
}

// The part with this number, if there is one. An Option, and no TryFrom with an error of its own: power-on and the driver make 43 of a
// number that has none, and whoever reads a record makes 28.
#[tactic(auto, unfolding(crate::specs::Parts::part_read))]
pub fn part_of(number: usize) -> Option<Part>
    ensures { result ≡ part_read number }
{
    match number {
        0 => Some(Part::Ht),
        1 => Some(Part::Gn),
        _ => None,
    }
}

// Why a call was refused. A place is the lowest index at fault.
#[derive(Clone, Copy)]
pub enum Refusal {
    // 20: a sample above 15
    SampleAbove,
    // 21: no nibble or no command asked
    NothingAsked,
    // 22: a first address above 31
    AddressAbove,
    // 23: a nibble above 15
    NibbleAbove(usize),
    // 24: an undefined command
    UndefinedCommand(usize),
    // 25: an output shorter than needed
    OutputShort,
    // 26: a number of noted bytes that is 0, above 128 or no multiple of 4
    NotedCount,
    // 27: a noted byte above 1
    NotedAbove(usize),
    // 28: a malformed state record
    Malformed,
    // 29: a power-on memory that is not 32 values
    MemoryCount,
    // 30: a first address from 0 to 31, and more addresses asked than there are from it on
    RunsPastEnd,
    // 31: more than 32 commands
    TooManyCommands,
    // 43: a part that is none
    UnknownPart,
}

impl From<Refusal> for u8 {
    ghost from_gives = { λ why number. number ≡ refusal_number why };

    // The refusal's number in the table of RULES "Driver streams".
    fn from(why: Refusal) -> u8
        ensures { result ≡ refusal_number why }
    {
        match why {
            Refusal::SampleAbove => 20,
            Refusal::NothingAsked => 21,
            Refusal::AddressAbove => 22,
            Refusal::NibbleAbove(_) => 23,
            Refusal::UndefinedCommand(_) => 24,
            Refusal::OutputShort => 25,
            Refusal::NotedCount => 26,
            Refusal::NotedAbove(_) => 27,
            Refusal::Malformed => 28,
            Refusal::MemoryCount => 29,
            Refusal::RunsPastEnd => 30,
            Refusal::TooManyCommands => 31,
            Refusal::UnknownPart => 43,
        }
    }
}

impl Refusal {
    // Where the fault is: the lowest index, or 0 for a refusal that has no place.
    pub fn place(self) -> usize
        ensures { result ≡ refusal_place self }
    {
        match self {
            Refusal::SampleAbove => 0,
            Refusal::NothingAsked => 0,
            Refusal::AddressAbove => 0,
            Refusal::NibbleAbove(place) => place,
            Refusal::UndefinedCommand(place) => place,
            Refusal::OutputShort => 0,
            Refusal::NotedCount => 0,
            Refusal::NotedAbove(place) => place,
            Refusal::Malformed => 0,
            Refusal::MemoryCount => 0,
            Refusal::RunsPastEnd => 0,
            Refusal::TooManyCommands => 0,
            Refusal::UnknownPart => 0,
        }
    }
}

// The lowest place of a value above a limit, if there is one.
pub fn first_above(values: &[u8], limit: u8) -> Option<usize>
    ensures { result ≡ position (ltb limit) values.now }
{
    values.iter().position(|value| limit < *value)
}

// A value for each address: the first of some values, with zeros where there are fewer. An array of the memory's size, since nothing is
// allocated.
pub fn memory_from(values: &[u8]) -> [u8; ADDRESSES]
    ensures { result ≡ memory_from values.now }
{
    let mut kept = [0u8; ADDRESSES];
    let count = values.len().min(ADDRESSES);
    kept[..count].copy_from_slice(&values[..count]);
    kept
}
