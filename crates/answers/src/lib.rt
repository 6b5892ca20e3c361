// What a sample is answered, and the answer as numbers. Assumes nothing.
#![tactic(auto)]

ghost use Rattle.std.specs.Prelude.{◌≡◌};
ghost use Rattle.answers.specs.Answers.{numbered, numbers};

use ground::Refusal;

// What a sample is answered.
#[derive(Clone, Copy)]
pub enum Answer {
    Nothing,
    Opened,
    Closed,
    Dropped,
    Taken,
    Stored(u8, u8),
    Obeyed(u8),
    Passed(u8),
    Offered(u8, bool),
    Stray,
    Unknown,
    Clash,
    Refused(Refusal),
}

// An answer as the table of RULES has it: its number and its two details.
#[derive(Clone, Copy)]
pub struct Numbers {
    pub number: u8,
    pub first: u8,
    pub second: u8,
}

fn numbered(number: u8, first: u8, second: u8) -> Numbers
    ensures { result ≡ numbered number first second }
{
    Numbers {
        number,
        first,
        second,
    }
}

impl From<Answer> for Numbers {
    ghost from_gives = { λ answer result. result ≡ numbers answer };

    // The answer's number, a refusal's its own, and its details: the address or the code, and the nibble or the bit, or 0.
    fn from(answer: Answer) -> Numbers
        ensures { result ≡ numbers answer }
    {
        match answer {
            Answer::Nothing => numbered(0, 0, 0),
            Answer::Opened => numbered(1, 0, 0),
            Answer::Closed => numbered(2, 0, 0),
            Answer::Dropped => numbered(3, 0, 0),
            Answer::Taken => numbered(4, 0, 0),
            Answer::Stored(address, nibble) => numbered(5, address, nibble),
            Answer::Obeyed(code) => numbered(6, code, 0),
            Answer::Passed(code) => numbered(7, code, 0),
            Answer::Offered(address, bit) => numbered(8, address, bit as u8),
            Answer::Stray => numbered(9, 0, 0),
            Answer::Unknown => numbered(10, 0, 0),
            Answer::Clash => numbered(11, 0, 0),
            Answer::Refused(refusal) => numbered(u8::from(refusal), 0, 0),
        }
    }
}
