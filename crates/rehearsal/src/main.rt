// Rehearses a write that stops: 1, 2, 3, 4, 5 at address 3 on a chip with an empty memory, stopped after 40 of its 61 samples
// with seven ticks after each, and then sent again. Writes the memory after the stop and after the resend, a line each of 32
// hex digits. Assumes nothing.
#![tactic(auto)]

ghost use Rattle.std.specs.Prelude.{◌≡◌, take};
ghost use Rattle.demands.specs.Events.{after};
ghost use Rattle.rehearsal.specs.Rehearsal.{paced, Rehearses};

use chip::Chip;
use ground::Refusal;
use std::io;

// What a rehearsal comes to: what the driver answered, and the chip where the write was stopped. The chip is no part of the answer: there
// is one after a refusal too, and `Rehearses` says which.
#[derive(Clone, Copy)]
struct Rehearsed {
    answer: Result<usize, Refusal>,
    chip: Chip,
}

// Feeds a chip the first `stop` of some samples, with `pause` ticks after each.
fn fed(chip: Chip, samples: &[u8], stop: usize, pause: u16) -> Chip
    ensures { result ≡ after chip (paced pause (take stop samples.now)) }
{
    samples
        .iter()
        .take(stop)
        .fold(chip, |now, sample| now.step(*sample).chip.advance(pause))
}

// Rehearses a write that stops: has the driver write its stream into the room lent, and feeds the chip its first `stop`
// samples, with `pause` ticks after each. What the driver refuses is refused, and the chip stays as it was.
fn rehearse(
    chip: Chip,
    first: usize,
    nibbles: &[u8],
    stop: usize,
    pause: u16,
    room: &mut [u8],
) -> Rehearsed
    ensures { Rehearses chip first nibbles.now stop pause room.old result room.new }
{
    let answer = driver::write(first, nibbles, room);
    match answer {
        Ok(count) => {
            let chip = fed(chip, &room[..count], stop, pause);
            Rehearsed { answer, chip }
        }
        Err(_) => Rehearsed { answer, chip },
    }
}

// A nibble as a hex digit. Above 15 it is some letter, so that there is nothing to refuse.
fn digit(nibble: u8) -> u8 {
    if nibble < 10 {
        return b'0' + nibble;
    }
    b'a' + (nibble - 10) % 16
}

// Writes the memory of a chip as a line of hex digits, of which the newline is the 33rd byte. In one write, from a buffer: `print!` writes
// at once, so that a line made digit by digit could be torn by another writer, or left half written.
fn show(rt: &impl Print, chip: Chip) -> io::Result<()> {
    let mut line = [b'\n'; 33];
    for (byte, nibble) in line.iter_mut().zip(&chip.port.memory) {
        *byte = digit(*nibble);
    }
    rt.write_all(&line)
}

fn main(rt: HostRuntime) -> io::Result<()> {
    let nibbles = [1u8, 2, 3, 4, 5];
    let mut room = [0u8; 277]; // of a fixed length, as a meter lends it: the driver asks for no memory of its own
    let stopped = rehearse(power::empty(), 3, &nibbles, 40, 7, &mut room);
    show(&rt, stopped.chip)?;
    let resent = rehearse(stopped.chip, 3, &nibbles, 277, 0, &mut room);
    show(&rt, resent.chip)
}
