// A frame, sample by sample: what a phase makes of what the four lines do. It knows the nibble that stands at the frame's
// address and no more of the memory, and of a command its code and not its meaning. All goes by value. Assumes nothing.
#![tactic(auto)]

ghost use Rattle.std.specs.Prelude.{◌≡◌};
ghost use Rattle.ground.specs.Bits.{bit_at};
ghost use Rattle.frames.specs.declared.Upshot.TheVariants.{Answered};
ghost use Rattle.frames.specs.Frames.{framed, more, turned, reached, next, collected, identified, taken, offered_in, offered, closed, frame};

use answers::Answer;
use lines::Edge;
use phases::{Line, Phase};

// What a sample comes to in its frame: an answer and no more; a nibble complete, with its address; or a command's code
// complete, which whoever knows the commands has to answer.
#[derive(Clone, Copy)]
pub enum Upshot {
    Answered(Answer),
    Nibble(u8, u8),
    Code(u8),
}

// A frame after a sample.
#[derive(Clone, Copy)]
pub struct Framed {
    pub phase: Phase,
    pub line: Line,
    pub upshot: Upshot,
}

impl Framed {
    // A frame whose sample is answered and comes to no more.
    fn answered(phase: Phase, line: Line, answer: Answer) -> Framed
        ensures { result ≡ framed phase line (Answered answer) }
    {
        Framed {
            phase,
            line,
            upshot: Upshot::Answered(answer),
        }
    }
}

// A value with one bit more behind it.
fn with_bit(value: u16, bit: bool) -> u16
    ensures { result ≡ more value bit }
{
    ((2 * (value as u32) + (bit as u32)) % 512) as u16
}

// The nibble of four bits that came D0 first.
fn nibble_of(value: u16) -> u8
    ensures { result ≡ turned value }
{
    (value / 8 % 2 + 2 * (value / 4 % 2) + 4 * (value / 2 % 2) + 8 * (value % 2)) as u8
}

// The address that six bits say.
fn address_of(value: u16) -> u8
    ensures { result ≡ reached value }
{
    (value % phases::ROUND) as u8
}

// The address after an address.
fn next_of(address: u8) -> u8
    ensures { result ≡ next address }
{
    ((address as u16 + 1) % phases::ROUND) as u8
}

// Bit `position` of a nibble. Streams has its own, for the bits of a byte: one for both would be public, for one line of code.
#[tactic(auto, using(ground::proofs::BitsLaws::bit_at_past))]
fn bit_of(position: u8, nibble: u8) -> bool
    ensures { result ≡ bit_at position nibble }
{
    position < 8 && (nibble >> position) % 2 == 1
}

// A bit that is taken and leaves the frame in a phase.
fn collect(phase: Phase) -> Framed
    ensures { result ≡ collected phase }
{
    Framed::answered(phase, Line::Released, Answer::Taken)
}

// A bit that is offered and leaves the frame in a phase.
fn drive(phase: Phase, at: u8, bit: bool) -> Framed
    ensures { result ≡ offered_in phase at bit }
{
    Framed::answered(phase, Line::Driven(bit), Answer::Offered(at, bit))
}

// The third bit of an ID.
#[tactic(auto, unfolding(crate::specs::Frames::identified))]
fn identify(id: u16) -> Framed
    ensures { result ≡ identified id }
{
    match id {
        6 => collect(Phase::ReadTo(0, 0)),
        5 => collect(Phase::WriteTo(0, 0)),
        4 => collect(Phase::Command(0, 0)),
        _ => Framed::answered(Phase::Dead, Line::Released, Answer::Unknown),
    }
}

// A WR rise. In a read frame, in a dead one and in none it is stray; elsewhere its bit is taken, and the last bit of an ID, an
// address, a nibble or a command completes it.
#[tactic(auto, unfolding(crate::specs::Frames::taken, crate::specs::Frames::ident_taken, crate::specs::Frames::read_to_taken, crate::specs::Frames::write_to_taken, crate::specs::Frames::nibble_taken, crate::specs::Frames::command_taken))]
fn take(bit: bool, phase: Phase, line: Line) -> Framed
    ensures { result ≡ taken bit phase line }
{
    match phase {
        Phase::Ident(count, value) if count < 2 => {
            collect(Phase::Ident(count + 1, with_bit(value, bit)))
        }
        Phase::Ident(_, value) => identify(with_bit(value, bit)),
        Phase::ReadTo(count, value) if count < 5 => {
            collect(Phase::ReadTo(count + 1, with_bit(value, bit)))
        }
        Phase::ReadTo(_, value) => collect(Phase::Reading(address_of(with_bit(value, bit)), 0)),
        Phase::WriteTo(count, value) if count < 5 => {
            collect(Phase::WriteTo(count + 1, with_bit(value, bit)))
        }
        Phase::WriteTo(_, value) => {
            collect(Phase::Writing(0, 0, address_of(with_bit(value, bit)), 0))
        }
        Phase::Writing(count, value, at, position) if count < 3 => {
            collect(Phase::Writing(count + 1, with_bit(value, bit), at, position))
        }
        Phase::Writing(_, value, at, _) => Framed {
            phase: Phase::Writing(0, 0, next_of(at), 0),
            line: Line::Released,
            upshot: Upshot::Nibble(at, nibble_of(with_bit(value, bit))),
        },
        Phase::Command(count, value) if count < 8 => {
            collect(Phase::Command(count + 1, with_bit(value, bit)))
        }
        Phase::Command(_, value) => Framed {
            phase: Phase::Command(0, 0),
            line: Line::Released,
            upshot: Upshot::Code((with_bit(value, bit) / 2 % 256) as u8),
        },
        Phase::Idle | Phase::Reading(_, _) | Phase::Dead => {
            Framed::answered(phase, line, Answer::Stray)
        }
    }
}

// An RD fall: a frame that reads or writes offers a bit of the nibble at its address. Elsewhere it is stray.
#[tactic(auto, unfolding(crate::specs::Frames::offered, crate::specs::Frames::read_offered))]
fn offer(nibble: u8, phase: Phase, line: Line) -> Framed
    ensures { result ≡ offered nibble phase line }
{
    match phase {
        Phase::Reading(at, position) if position < 3 => {
            let bit = bit_of(position, nibble);
            drive(Phase::Reading(at, position + 1), at, bit)
        }
        Phase::Reading(at, position) => {
            let bit = bit_of(position, nibble);
            drive(Phase::Reading(next_of(at), 0), at, bit)
        }
        Phase::Writing(count, value, at, position) => {
            let bit = bit_of(position, nibble);
            let following = ((position as u16 + 1) % 4) as u8;
            drive(Phase::Writing(count, value, at, following), at, bit)
        }
        _ => Framed::answered(phase, line, Answer::Stray),
    }
}

// CS rises: the frame ends.
#[tactic(auto, unfolding(crate::specs::Frames::closed))]
fn close(phase: Phase) -> Framed
    ensures { result ≡ closed phase }
{
    match phase.unfinished() {
        0 => Framed::answered(Phase::Idle, Line::Released, Answer::Closed),
        _ => Framed::answered(Phase::Idle, Line::Released, Answer::Dropped),
    }
}

// The frame after a sample that is `edge` to it, where `nibble` stands at the frame's address. Phase and line are two arguments, as the
// definition `frame` has them, and a frame's answer is one value with both.
#[tactic(auto, unfolding(crate::specs::Frames::frame))]
pub fn frame_after(edge: Edge, nibble: u8, phase: Phase, line: Line) -> Framed
    ensures { result ≡ frame edge nibble phase line }
{
    match edge {
        Edge::Rests => Framed::answered(Phase::Idle, Line::Released, Answer::Nothing),
        Edge::Closes => close(phase),
        Edge::Opens => Framed::answered(Phase::Ident(0, 0), Line::Released, Answer::Opened),
        Edge::Clashes => Framed::answered(phase, line, Answer::Clash),
        Edge::Takes(bit) => take(bit, phase, line),
        Edge::Offers => offer(nibble, phase, line),
        Edge::Quiet => Framed::answered(phase, line, Answer::Nothing),
    }
}
