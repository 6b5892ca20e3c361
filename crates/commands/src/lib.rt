// What a command code means, in each part.
#![tactic(auto)]

ghost use Rattle.std.specs.Prelude.{◌≡◌, position};
ghost use Rattle.commands.specs.Commands.{code_meaning, command_fault};
ghost use Rattle.commands.specs.Numbers.{bias_number, commons_number, decoded_number, swapped, entry_of};

mod table; // table.rt: the 512 entries

use ground::Part;

// The LCD's bias.
#[derive(Clone, Copy)]
pub enum Bias {
    Half,
    Third,
}

// How many commons the LCD has.
#[derive(Clone, Copy)]
pub enum Commons {
    Two,
    Three,
    Four,
}

impl From<Bias> for u8 {
    ghost from_gives = { λ bias number. number ≡ bias_number bias };

    // Its number in the state record: 2 for 1/2, 3 for 1/3.
    fn from(bias: Bias) -> u8
        ensures { result ≡ bias_number bias }
    {
        match bias {
            Bias::Half => 2,
            Bias::Third => 3,
        }
    }
}

impl From<Commons> for u8 {
    ghost from_gives = { λ commons number. number ≡ commons_number commons };

    // How many commons they are.
    fn from(commons: Commons) -> u8
        ensures { result ≡ commons_number commons }
    {
        match commons {
            Commons::Two => 2,
            Commons::Three => 3,
            Commons::Four => 4,
        }
    }
}

// The commands, by the names of the data sheets. A rate r from 0 to 7 is F1 to F128. Bias and commons are no struct: the definitions and the
// theorems of commands name `BiasCom` with both.
#[derive(Clone, Copy)]
pub enum Command {
    SysDis,
    SysEn,
    LcdOff,
    LcdOn,
    TimerDis,
    WdtDis,
    TimerEn,
    WdtEn,
    ToneOff,
    ToneOn,
    ClrTimer,
    ClrWdt,
    Xtal32k,
    Rc256k,
    Ext256k,
    BiasCom(Bias, Commons),
    Tone4k,
    Tone2k,
    IrqDis,
    IrqEn,
    Rate(u8),
    Test,
    Normal,
}

// The codes of 0A and 0B in the places of 0C and 0D, and the other way round.
#[tactic(auto, unfolding(crate::specs::Numbers::swapped))]
fn swapped(code: usize) -> usize
    ensures { result ≡ swapped code }
{
    let below_both = code < 0x14;
    if below_both {
        return code;
    }
    if code < 0x18 {
        return code + 4;
    }
    if code < 0x1c {
        return code - 4;
    }
    code
}

// Where the table has a code of a part.
#[tactic(auto, unfolding(crate::specs::Numbers::entry_of))]
fn entry_of(part: Part, code: usize) -> usize
    ensures { result ≡ entry_of part code }
{
    match part {
        Part::Ht => code,
        Part::Gn => swapped(code),
    }
}

// The number that the table has for a code: that of no command where it is above 511. The table has numbers and no commands: the rules ask
// for one constant of 512 small numbers, so that it is read beside theirs.
#[tactic(auto, using(crate::proofs::TableLaws::past_undefined, crate::proofs::TableLaws::entry_there))]
fn number_of(part: Part, code: u16) -> u8
    ensures { result ≡ decoded_number (code_meaning part code) }
{
    if 511 < code {
        return 0xff;
    }
    let at = entry_of(part, code as usize);
    table::NUMBERS[at]
}

// The command that a nine-bit code means in a part, if it means one. A number above 511 is no code.
#[tactic(auto, using(crate::proofs::TableLaws::named_ruled))]
pub fn meaning(part: Part, code: u16) -> Option<Command>
    ensures { result ≡ code_meaning part code }
{
    let number = number_of(part, code);
    match number {
        0x00 => Some(Command::SysDis),
        0x01 => Some(Command::SysEn),
        0x02 => Some(Command::LcdOff),
        0x03 => Some(Command::LcdOn),
        0x04 => Some(Command::TimerDis),
        0x05 => Some(Command::WdtDis),
        0x06 => Some(Command::TimerEn),
        0x07 => Some(Command::WdtEn),
        0x08 => Some(Command::ToneOff),
        0x09 => Some(Command::ToneOn),
        0x0c => Some(Command::ClrTimer),
        0x0e => Some(Command::ClrWdt),
        0x14 => Some(Command::Xtal32k),
        0x18 => Some(Command::Rc256k),
        0x1c => Some(Command::Ext256k),
        0x20 => Some(Command::BiasCom(Bias::Half, Commons::Two)),
        0x21 => Some(Command::BiasCom(Bias::Third, Commons::Two)),
        0x24 => Some(Command::BiasCom(Bias::Half, Commons::Three)),
        0x25 => Some(Command::BiasCom(Bias::Third, Commons::Three)),
        0x28 => Some(Command::BiasCom(Bias::Half, Commons::Four)),
        0x29 => Some(Command::BiasCom(Bias::Third, Commons::Four)),
        0x40 => Some(Command::Tone4k),
        0x60 => Some(Command::Tone2k),
        0x80 => Some(Command::IrqDis),
        0x88 => Some(Command::IrqEn),
        0xa0..=0xa7 => Some(Command::Rate(number % 8)),
        0xe0 => Some(Command::Test),
        0xe3 => Some(Command::Normal),
        _ => None,
    }
}

// Whether a byte is the upper eight bits of no command of a part. Asked by the number and not by `meaning` (tried; it misses the speed bar,
// 32 commands take a third longer).
#[tactic(auto, unfolding(crate::specs::Commands::command_fault), using(crate::proofs::TableLaws::told_fault, crate::proofs::TableLaws::named_ruled))]
fn is_undefined(part: Part, code: u8) -> bool
    ensures { result ≡ command_fault part code }
{
    number_of(part, 2 * (code as u16)) == 0xff
}

// The lowest place of a byte that is the upper eight bits of no command of a part, if there is one.
pub fn first_undefined(part: Part, codes: &[u8]) -> Option<usize>
    ensures { result ≡ position (command_fault part) codes.now }
{
    codes.iter().position(|code| is_undefined(part, *code))
}
