// Sample streams for an HT1621, and what a read noted made nibbles. Each function writes its whole stream over the start of the
// buffer lent, or refuses with 25 and writes nothing; what may be asked of a chip is for the driver to say. First address, count or
// nibbles, and the buffer, are no struct: the calls for C have them so, and `write_stream` takes them apart. Assumes nothing.
#![tactic(auto)]

ghost use Rattle.std.specs.Prelude.{◌≡◌, ◌+◌, ◌*◌, ◌%◌, ◌≤◌, ◌<◌, ◌++◌, ltb, length};
ghost use Rattle.ground.specs.Written.{Wrote};
ghost use Rattle.streams.specs.Streams.{opening, send_bits, address_bits};
ghost use Rattle.streams.specs.Streams.{write_stream, read_stream, command_stream, nibble_of, decoded, lowest_bits};
ghost use Rattle.streams.specs.Sent.{Sends};

mod samples; // samples.rt: parts of a stream, written at a cursor

use ground::Refusal;

// The samples of a write or a read beside its nibbles, and of a nibble.
pub const TRANSFER_FRAME: usize = 21;

pub const NIBBLE_SAMPLES: usize = 8;

// The samples of commands beside them, and of a command.
const COMMAND_FRAME: usize = 9;

const COMMAND_SAMPLES: usize = 18;

// Four noted bytes make a nibble.
pub const NIBBLE_NOTES: usize = 4;

// What every frame starts and ends with: all lines high, then CS low; and all high again.
const OPENING: [u8; 2] = [15, 14];

const CLOSING: [u8; 1] = [15];

// A nibble read: four times RD goes low, then high, with DATA high.
const READ_NIBBLE: [u8; NIBBLE_SAMPLES] = [10, 14, 10, 14, 10, 14, 10, 14];

// The three IDs.
const WRITE_ID: [bool; 3] = [true, false, true];

const READ_ID: [bool; 3] = [true, true, false];

const COMMAND_ID: [bool; 3] = [true, false, false];

// Whether a buffer has no room for a frame and `count` parts of `each` samples, for every number that a caller can pass.
fn short(room: usize, frame: usize, each: usize, count: usize) -> bool
    requires { 0 < each }
    ensures { result ≡ ltb room (frame + each * count) }
{
    room < frame || (room - frame) / each < count
}

// How a write and a read begin: all lines high, CS low, the ID and the address.
fn open_transfer(id: [bool; 3], first: u8, out: &mut [u8]) -> usize
    requires { 20 ≤ length out.old }
    ensures { Wrote out.old 0 (opening ++ send_bits (id ++ address_bits first)) out.new result }
{
    let opened = samples::put(out, 0, OPENING);
    let named = samples::put_bits(out, opened, &id);
    samples::put_bits(out, named, &samples::address_bits(first))
}

// The stream that writes nibbles, the four lowest bits of each, from the address `first` on.
pub fn write(first: u8, nibbles: &[u8], out: &mut [u8]) -> Result<usize, Refusal>
    ensures { Sends
        (write_stream first nibbles.now)
        out.old result out.new }
{
    if short(out.len(), TRANSFER_FRAME, NIBBLE_SAMPLES, nibbles.len()) {
        return Err(Refusal::OutputShort);
    }
    let mut at = open_transfer(WRITE_ID, first, out);
    for nibble in nibbles {
        at = samples::put_bits(out, at, &samples::nibble_bits(*nibble));
    }
    let written = samples::put(out, at, CLOSING);
    Ok(written)
}

// The stream that reads `count` nibbles from the address `first` on.
pub fn read(first: u8, count: usize, out: &mut [u8]) -> Result<usize, Refusal>
    ensures { Sends (read_stream first count) out.old result out.new }
{
    if short(out.len(), TRANSFER_FRAME, NIBBLE_SAMPLES, count) {
        return Err(Refusal::OutputShort);
    }
    let mut at = open_transfer(READ_ID, first, out);
    for _ in 0..count {
        at = samples::put(out, at, READ_NIBBLE);
    }
    let sent = samples::put(out, at, CLOSING);
    Ok(sent)
}

// The stream that gives commands, each by the byte of its upper eight bits; the ninth is 0.
pub fn commands(codes: &[u8], out: &mut [u8]) -> Result<usize, Refusal>
    ensures { Sends (command_stream codes.now) out.old result out.new }
{
    if short(out.len(), COMMAND_FRAME, COMMAND_SAMPLES, codes.len()) {
        return Err(Refusal::OutputShort);
    }
    let opened = samples::put(out, 0, OPENING);
    let mut at = samples::put_bits(out, opened, &COMMAND_ID);
    for code in codes {
        at = samples::put_bits(out, at, &samples::command_bits(*code));
    }
    let sent = samples::put(out, at, CLOSING);
    Ok(sent)
}

// A nibble of four notes, D0 first, each by its lowest bit.
fn nibble_of(d0: u8, d1: u8, d2: u8, d3: u8) -> u8
    ensures { result ≡ nibble_of (d0 % 2) (d1 % 2) (d2 % 2) (d3 % 2) }
{
    d0 % 2 + 2 * (d1 % 2) + 4 * (d2 % 2) + 8 * (d3 % 2)
}

// The nibbles that notes make, a byte for each: a note counts by its lowest bit, and four make a nibble, D0 first. What is
// left over is dropped.
pub fn decode(noted: &[u8], out: &mut [u8]) -> Result<usize, Refusal>
    ensures { Sends (decoded (lowest_bits noted.now)) out.old result out.new }
{
    let count = noted.len() / NIBBLE_NOTES;
    if out.len() < count {
        return Err(Refusal::OutputShort);
    }
    let mut at = 0;
    for notes in noted.chunks_exact(NIBBLE_NOTES) {
        let nibble = nibble_of(notes[0], notes[1], notes[2], notes[3]);
        at = samples::put(out, at, [nibble]);
    }
    Ok(at)
}
