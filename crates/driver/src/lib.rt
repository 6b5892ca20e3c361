// The host's side of an HT1621 or a GN1621: sample streams for writes, reads and commands, and the meaning of what a read noted.
// Every call is answered: with the number of bytes that it wrote at the start of the buffer lent, or with the reason
// why it wrote none. What is not refused here is for `streams` to write, which refuses last, a buffer too short.
// First address, count or nibbles, and the buffer, are no struct: the calls for C have them so, and `write_answer` takes them apart.
// Assumes nothing.
#![tactic(auto)]

ghost use Rattle.std.specs.Prelude.{◌≡◌, length, Ok, Err};
ghost use Rattle.ground.specs.Outcomes.{ladder, ComesTo};
ghost use Rattle.streams.specs.Streams.{write_stream, read_stream, command_stream, decoded};
ghost use Rattle.driver.specs.Refusals.{miscounted, write_answer, read_answer, command_answer, decode_answer};
ghost use Rattle.driver.specs.Ranges.{range_refusals};

use ground::Refusal;

// The most commands that one stream takes, and the most notes that are decoded: those of every address.
const MOST_COMMANDS: usize = 32;

const MOST_NOTES: usize = ground::ADDRESSES * streams::NIBBLE_NOTES;

// Whether `count` addresses from `first` on can be asked for. Refused, in this order: no address; a first address above 31;
// addresses past the last one.
fn check_range(first: usize, count: usize) -> Result<(), Refusal>
    ensures { result ≡ ladder Err (range_refusals first count) (Ok tt) }
{
    let nothing = count == 0;
    if nothing {
        return Err(Refusal::NothingAsked);
    }
    if ground::ADDRESSES <= first {
        return Err(Refusal::AddressAbove);
    }
    if ground::ADDRESSES - first < count {
        return Err(Refusal::RunsPastEnd);
    }
    Ok(())
}

// Whether a number of noted bytes is none of 4, 8 .. 128.
#[tactic(auto, unfolding(crate::specs::Refusals::miscounted))]
fn miscounted(count: usize) -> bool
    ensures { result ≡ miscounted count }
{
    count == 0 || MOST_NOTES < count || count % streams::NIBBLE_NOTES != 0
}

// The stream that writes nibbles from the address `first` on: 21 bytes, and 8 for each nibble. Refused, in this order:
// no nibble; a first address above 31; nibbles past the last address; a nibble above 15, with its place; a buffer too
// short.
pub fn write(first: usize, nibbles: &[u8], out: &mut [u8]) -> Result<usize, Refusal>
    ensures { ComesTo
        (write_answer first nibbles.now (length out.old))
        (write_stream first nibbles.now)
        out.old result out.new }
{
    check_range(first, nibbles.len())?;
    if let Some(place) = ground::first_above(nibbles, 15) {
        return Err(Refusal::NibbleAbove(place));
    }
    streams::write(first as u8, nibbles, out)
}

// The stream that reads `count` nibbles from the address `first` on: 21 bytes, and 8 for each nibble. Refused, in this
// order: no nibble; a first address above 31; nibbles past the last address; a buffer too short.
pub fn read(first: usize, count: usize, out: &mut [u8]) -> Result<usize, Refusal>
    ensures { ComesTo
        (read_answer first count (length out.old))
        (read_stream first count)
        out.old result out.new }
{
    check_range(first, count)?;
    streams::read(first as u8, count, out)
}

// The stream that gives commands to a chip of the part with this number, each by the byte of its upper eight bits: 9 bytes, and 18
// for each command. Refused, in this order: a part that is none; no command; more than 32; one that is undefined in the part, with its
// place; a buffer too short.
pub fn commands(number: usize, codes: &[u8], out: &mut [u8]) -> Result<usize, Refusal>
    ensures { ComesTo
        (command_answer number codes.now (length out.old))
        (command_stream codes.now)
        out.old result out.new }
{
    let part = ground::part_of(number).ok_or(Refusal::UnknownPart)?;
    if codes.is_empty() {
        return Err(Refusal::NothingAsked);
    }
    if MOST_COMMANDS < codes.len() {
        return Err(Refusal::TooManyCommands);
    }
    if let Some(place) = commands::first_undefined(part, codes) {
        return Err(Refusal::UndefinedCommand(place));
    }
    streams::commands(codes, out)
}

// The nibbles that a read noted, a byte for each: four noted bits, D0 first, make one. Refused, in this order: a number
// of noted bytes that is none of 4, 8 .. 128; a noted byte above 1, with its place; a buffer too short.
pub fn decode(noted: &[u8], out: &mut [u8]) -> Result<usize, Refusal>
    ensures { ComesTo
        (decode_answer noted.now (length out.old))
        (decoded noted.now)
        out.old result out.new }
{
    if miscounted(noted.len()) {
        return Err(Refusal::NotedCount);
    }
    if let Some(place) = ground::first_above(noted, 1) {
        return Err(Refusal::NotedAbove(place));
    }
    streams::decode(noted, out)
}
