// A frame read from a state record's bytes, 32 to 39: the lines, the phase and DATA. What coded bytes come to is taken apart by
// `let .. else` and not by `?`: that is the form that the pack has for it. Assumes nothing.
#![tactic(auto)]

ghost use Rattle.std.specs.Prelude.{◌≡◌};
ghost use Rattle.phases.specs.Frame.{line_read, holds_frame, frame_read};

mod fields; // fields.rt: a frame's bytes, and which of them are right

use fields::Fields;
use lines::Levels;
use phases::{Frame, Line};

// DATA, byte 39. An Option, and no TryFrom: what no case means is for the reader of the record to say.
#[tactic(auto, unfolding(phases::specs::Frame::line_read))]
fn line_of(code: u8) -> Option<Line>
    ensures { result ≡ line_read code }
{
    match code {
        0 => Some(Line::Released),
        1 => Some(Line::Driven(false)),
        2 => Some(Line::Driven(true)),
        _ => None,
    }
}

// Whether a record's bytes 32 to 39 are right: for whoever has no use for the frame itself.
pub fn holds_frame(bytes: &[u8]) -> bool
    ensures { result ≡ holds_frame bytes.now }
{
    match Fields::of(bytes) {
        Some(fields) => fields.are_right(),
        None => false,
    }
}

// The lines, the phase and DATA that a record's bytes 32 to 39 say, if they are right.
#[tactic(auto, unfolding(phases::specs::Frame::frame_read), using(phases::proofs::FrameLaws::no_phase, phases::proofs::FrameLaws::no_line))]
pub fn frame_in(bytes: &[u8]) -> Option<Frame>
    ensures { result ≡ frame_read bytes.now }
{
    let fields = Fields::of(bytes)?;
    if !fields.are_right() {
        return None;
    }
    let Some(phase) = fields.phase() else {
        return None;
    };
    let Some(line) = line_of(fields.line) else {
        return None;
    };
    Some(Frame {
        levels: Levels::from(fields.lines),
        phase,
        line,
    })
}
