// Where a frame stands, what the chip does to DATA, and both with the lines as bytes of a state record, 32 to 39. Assumes
// nothing.
#![tactic(auto)]

ghost use Rattle.std.specs.Prelude.{◌≡◌};
ghost use Rattle.ground.specs.Outcomes.{written_as};
ghost use Rattle.phases.specs.Phases.{unfinished, address, value_of, position_of, phase_number, line_number};
ghost use Rattle.phases.specs.Frame.{frame_over};

use ground::Refusal;
use lines::Levels;

// How many addresses a frame counts through before it comes round to the first: those of six bits.
pub const ROUND: u16 = 64;

// Where a record has the frame's bytes: the lines first, then the phase, its unfinished bits with their value, its address and
// its reading position, and DATA last.
pub const FRAME_AT: usize = ground::ADDRESSES;

pub const PHASE_AT: usize = FRAME_AT + 1;

pub const COUNT_AT: usize = FRAME_AT + 2;

pub const LOW_AT: usize = FRAME_AT + 3;

pub const HIGH_AT: usize = FRAME_AT + 4;

pub const ADDRESS_AT: usize = FRAME_AT + 5;

pub const POSITION_AT: usize = FRAME_AT + 6;

pub const DATA_AT: usize = FRAME_AT + 7;

// Where a frame stands. What comes in bit by bit has a count of the bits so far and their value, the first bit highest. The two are no
// struct: the definitions of a frame and the theorems of stopped writes take each phase with what it carries, one by one.
#[derive(Clone, Copy)]
pub enum Phase {
    Idle,
    Ident(u8, u16),
    ReadTo(u8, u16),
    WriteTo(u8, u16),
    Reading(u8, u8),
    Writing(u8, u16, u8, u8),
    Command(u8, u16),
    Dead,
}

// What the chip does to DATA.
#[derive(Clone, Copy)]
pub enum Line {
    Released,
    Driven(bool),
}

// The four lines, where the frame stands, and what the chip does to DATA: what a record has in bytes 32 to 39.
#[derive(Clone, Copy)]
pub struct Frame {
    pub levels: Levels,
    pub phase: Phase,
    pub line: Line,
}

impl From<Line> for u8 {
    ghost from_gives = { λ line number. number ≡ line_number line };

    // Its number in the state record and among the pins: 0 released, 1 low, 2 high.
    fn from(line: Line) -> u8
        ensures { result ≡ line_number line }
    {
        match line {
            Line::Released => 0,
            Line::Driven(bit) => 1 + (bit as u8),
        }
    }
}

impl Phase {
    // How many bits a closing sample would drop.
    pub fn unfinished(self) -> u8
        ensures { result ≡ unfinished self }
    {
        match self {
            Phase::Ident(count, _)
            | Phase::ReadTo(count, _)
            | Phase::WriteTo(count, _)
            | Phase::Writing(count, _, _, _)
            | Phase::Command(count, _) => count,
            Phase::Idle | Phase::Reading(_, _) | Phase::Dead => 0,
        }
    }

    // The address that the frame has reached, or 0.
    pub fn address(self) -> u8
        ensures { result ≡ address self }
    {
        match self {
            Phase::Reading(at, _) => at,
            Phase::Writing(_, _, at, _) => at,
            _ => 0,
        }
    }

    // Its number in the state record. No From: a phase is more than its number, which leaves out what it carries.
    fn number(self) -> u8
        ensures { result ≡ phase_number self }
    {
        match self {
            Phase::Idle => 0,
            Phase::Ident(_, _) => 1,
            Phase::ReadTo(_, _) => 2,
            Phase::WriteTo(_, _) => 3,
            Phase::Reading(_, _) => 4,
            Phase::Writing(_, _, _, _) => 5,
            Phase::Command(_, _) => 6,
            Phase::Dead => 7,
        }
    }

    // The value of the unfinished bits, or 0.
    fn value(self) -> u16
        ensures { result ≡ value_of self }
    {
        match self {
            Phase::Ident(_, value)
            | Phase::ReadTo(_, value)
            | Phase::WriteTo(_, value)
            | Phase::Writing(_, value, _, _)
            | Phase::Command(_, value) => value,
            Phase::Idle | Phase::Reading(_, _) | Phase::Dead => 0,
        }
    }

    // The position of the next bit to be offered, or 0.
    fn position(self) -> u8
        ensures { result ≡ position_of self }
    {
        match self {
            Phase::Reading(_, position) => position,
            Phase::Writing(_, _, _, position) => position,
            _ => 0,
        }
    }
}

// Of a record that a buffer holds, the frame's bytes alone. Each is stored by itself: so the next reading loads what was
// stored, byte by byte.
#[tactic(auto, unfolding(ground::specs::Outcomes::written_as, crate::specs::Frame::frame_over))]
pub fn write_frame(frame: Frame, out: &mut [u8]) -> Result<usize, Refusal>
    ensures { (result ≡ written_as 8 out.old)
        × (out.new ≡ frame_over frame.levels frame.phase frame.line out.old) }
{
    let short = out.len() < ground::RECORD_LENGTH;
    if short {
        return Err(Refusal::OutputShort);
    }
    let phase = frame.phase;
    let value = phase.value();
    out[FRAME_AT] = u8::from(frame.levels);
    out[PHASE_AT] = phase.number();
    out[COUNT_AT] = phase.unfinished();
    out[LOW_AT] = (value % 256) as u8;
    out[HIGH_AT] = (value / 256) as u8;
    out[ADDRESS_AT] = phase.address();
    out[POSITION_AT] = phase.position();
    out[DATA_AT] = u8::from(frame.line);
    Ok(8)
}
