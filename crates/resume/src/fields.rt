// A frame's bytes in a record, and which of them are right: each in range, and all going together.
ghost use Rattle.std.specs.Prelude.{◌≡◌};
ghost use Rattle.phases.specs.Frame.{phase_read, in_range, goes_with_cs, bits_right, rest_right, frame_right};
ghost use Rattle.resume.specs.Fields.{fields_in};

use phases::{
    ADDRESS_AT, COUNT_AT, DATA_AT, FRAME_AT, HIGH_AT, LOW_AT, PHASE_AT, POSITION_AT, Phase,
};

// Bytes 32 to 39, those of the unfinished bits' value made one number. The tests go by the phase's number, before it is read: it is then
// right for every number, and `frame_right` asks it so.
#[derive(Clone, Copy)]
pub(crate) struct Fields {
    pub(crate) lines: u8,
    pub(crate) code: u8,
    pub(crate) count: u8,
    pub(crate) value: u16,
    pub(crate) at: u8,
    pub(crate) position: u8,
    pub(crate) line: u8,
}

// The most unfinished bits that each phase can have.
const MOST_BITS: [u8; 8] = [0, 2, 5, 5, 0, 3, 8, 0];

impl Fields {
    // Those of a list, if it is as long as a record: an Option, and no TryFrom, as of every part of a record.
    pub(crate) fn of(bytes: &[u8]) -> Option<Fields>
        ensures { result ≡ fields_in bytes.now }
    {
        if bytes.len() != ground::RECORD_LENGTH {
            return None;
        }
        Some(Fields {
            lines: bytes[FRAME_AT],
            code: bytes[PHASE_AT],
            count: bytes[COUNT_AT],
            value: bytes[LOW_AT] as u16 + 256 * (bytes[HIGH_AT] as u16),
            at: bytes[ADDRESS_AT],
            position: bytes[POSITION_AT],
            line: bytes[DATA_AT],
        })
    }

    // Whether those that do not go by the phase are in range.
    #[tactic(auto, unfolding(phases::specs::Frame::in_range))]
    fn in_range(self) -> bool
        ensures { result ≡ in_range self.lines self.at self.position self.line }
    {
        let within_round = (self.at as u16) < phases::ROUND;
        self.lines <= 15 && within_round && self.position <= 3 && self.line <= 2
    }

    // Whether there is no frame exactly while CS is high.
    #[tactic(auto, unfolding(phases::specs::Frame::goes_with_cs))]
    fn goes_with_cs(self) -> bool
        ensures { result ≡ goes_with_cs self.lines self.code }
    {
        if self.lines % 2 == 1 {
            return self.code == 0;
        }
        self.code != 0
    }

    // Whether there is such a phase, it can have so many unfinished bits, and they this value.
    #[tactic(auto, using(phases::proofs::FrameLaws::below_power), unfolding(phases::specs::Frame::bits_right))]
    fn bits_right(self) -> bool
        ensures { result ≡ bits_right self.code self.count self.value }
    {
        let Some(most) = MOST_BITS.get(self.code as usize) else {
            return false;
        };
        self.count <= *most && self.value >> self.count == 0
    }

    // Whether address, position and DATA are zero, or the phase can have them.
    #[tactic(auto, unfolding(phases::specs::Frame::rest_right))]
    fn rest_right(self) -> bool
        ensures { result ≡ rest_right self.code self.at self.position self.line }
    {
        let offers = self.code == 4 || self.code == 5;
        offers || (self.at == 0 && self.position == 0 && self.line == 0)
    }

    // Whether they are in range and go together.
    #[tactic(auto, unfolding(phases::specs::Frame::frame_right))]
    pub(crate) fn are_right(self) -> bool
        ensures { result ≡ frame_right self.lines self.code self.count self.value self.at self.position self.line }
    {
        self.in_range() && self.goes_with_cs() && self.bits_right() && self.rest_right()
    }

    // The phase of byte 33, with the bytes that it carries. An Option, and no TryFrom: what no case means is for the reader of the record
    // to say.
    #[tactic(auto, unfolding(phases::specs::Frame::phase_read))]
    pub(crate) fn phase(self) -> Option<Phase>
        ensures { result ≡ phase_read self.code self.count self.value self.at self.position }
    {
        match self.code {
            0 => Some(Phase::Idle),
            1 => Some(Phase::Ident(self.count, self.value)),
            2 => Some(Phase::ReadTo(self.count, self.value)),
            3 => Some(Phase::WriteTo(self.count, self.value)),
            4 => Some(Phase::Reading(self.at, self.position)),
            5 => Some(Phase::Writing(self.count, self.value, self.at, self.position)),
            6 => Some(Phase::Command(self.count, self.value)),
            7 => Some(Phase::Dead),
            _ => None,
        }
    }
}
