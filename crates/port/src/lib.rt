// The port: what samples move of a chip, the memory with the lines, the frame and DATA. All goes by value. Assumes nothing.
#![tactic(auto)]

ghost use Rattle.std.specs.Prelude.{◌≡◌, get_or, set};
ghost use Rattle.port.specs.Port.{moved};

use frames::Upshot;
use ground::ADDRESSES;
use lines::Levels;
use phases::{Line, Phase};

// What samples move: the memory of 32 nibbles, the levels last seen, the frame, and what the chip does to DATA. The last three are no
// `Frame` here: the theorems of stopped writes (`StoppedWrites`, `WriteFrames`) name them as a port's own.
#[derive(Clone, Copy)]
pub struct Port {
    pub memory: [u8; ADDRESSES],
    pub levels: Levels,
    pub phase: Phase,
    pub line: Line,
}

// A port after a sample, and what the sample came to in its frame.
#[derive(Clone, Copy)]
pub struct Moved {
    pub port: Port,
    pub upshot: Upshot,
}

// The nibble at an address, or 0 where there is none.
fn nibble_at(memory: [u8; ADDRESSES], at: u8) -> u8
    ensures { result ≡ get_or memory at 0 }
{
    memory.get(at as usize).copied().unwrap_or(0)
}

// The memory with a nibble stored; no address, no change.
#[tactic(auto, using(std::proofs::lemmas::List::set_past))]
fn stored(memory: [u8; ADDRESSES], at: u8, nibble: u8) -> [u8; ADDRESSES]
    ensures { result ≡ set memory at nibble }
{
    let mut next = memory;
    let i = at as usize;
    // Not by `get_mut`: once its borrow is over a proof knows no element (tried, and the proof did not close).
    if i < next.len() {
        next[i] = nibble;
    }
    next
}

impl Port {
    // The port after a sample of these levels. Of all that a sample can come to only a complete nibble changes the memory.
    #[tactic(auto, unfolding(crate::specs::Port::moved, crate::specs::Port::framed_by, crate::specs::Port::memory_after))]
    pub fn moved(self, levels: Levels) -> Moved
        ensures { result ≡ moved self levels }
    {
        let edge = lines::edge_of(self.levels, levels);
        let nibble = nibble_at(self.memory, self.phase.address());
        let framed = frames::frame_after(edge, nibble, self.phase, self.line);
        // No function of its own gives the memory: it would copy the array for every sample (tried; it misses the speed bar, a
        // sample takes three times as long).
        let memory = match framed.upshot {
            Upshot::Nibble(at, nibble) => stored(self.memory, at, nibble),
            Upshot::Answered(_) | Upshot::Code(_) => self.memory,
        };
        Moved {
            port: Port {
                memory,
                levels,
                phase: framed.phase,
                line: framed.line,
            },
            upshot: framed.upshot,
        }
    }
}
