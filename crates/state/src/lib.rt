// The state record: a chip as 64 bytes, read and written. A record is read only if it is valid, and then what is written
// again is the same bytes. What coded bytes come to is taken apart by `let .. else` and not by `?`: that is the form that the pack has
// for it. Assumes nothing.
#![tactic(auto)]

ghost use Rattle.std.specs.Prelude.{◌≡◌, ◌&&◌, ◌≤◌, eqb, length, take, fold, leb, true};
ghost use Rattle.ground.specs.Sizes.{addresses, record_length};
ghost use Rattle.ground.specs.Outcomes.{written_as};
ghost use Rattle.ground.specs.Written.{over};
ghost use Rattle.phases.specs.Frame.{framed};
ghost use Rattle.settings.specs.Bytes.{settings_at, scan_of};
ghost use Rattle.state.specs.Record.{memory_fits};
ghost use Rattle.state.specs.Answers.{recalled_from, settings_in, written_over, port_over};

use chip::Chip;
use clock::Scan;
use ground::{ADDRESSES, RECORD_LENGTH, Refusal};
use phases::Frame;
use port::Port;
use settings::{SETTINGS_AT, Settings, offsets};

// Whether all values are nibbles. All are looked at, so that they can be compared many at a time.
fn are_nibbles(values: &[u8]) -> bool
    ensures { result ≡ fold (λ right n. right && leb n 15) true values.now }
{
    values
        .iter()
        .fold(true, |right, nibble| right & (*nibble <= 15))
}

// Whether there are as many bytes as in a record, and nibbles first.
fn memory_right(bytes: &[u8]) -> bool
    ensures { result ≡ (eqb (length bytes.now) record_length && memory_fits bytes.now) }
{
    let counted = bytes.len() == RECORD_LENGTH;
    counted && are_nibbles(&bytes[..ADDRESSES])
}

// The scan that a record's bytes 59 and 60 say. That they are a record's is asked of the caller: an array of 64 would first have to be
// cut from the slice, whose length is tested all the same.
fn scan_in(bytes: &[u8]) -> Scan
    requires { length bytes.now ≡ record_length }
    ensures { result ≡ scan_of bytes.now }
{
    Scan {
        count: bytes[offsets::SCAN],
        common: bytes[offsets::COMMON],
    }
}

// The settings that a record says, if the record is valid: for whoever has no use for its port. What it has in common with `read` is in no
// function that both call (tried; it misses the speed bar: with two callers that is put into neither, and a sample takes a quarter longer).
pub fn settings_in(bytes: &[u8]) -> Option<Settings>
    ensures { result ≡ settings_in bytes.now }
{
    if !memory_right(bytes) {
        return None;
    }
    if !recall::in_range(bytes) {
        return None;
    }
    if !resume::holds_frame(bytes) {
        return None;
    }
    let Some(part) = ground::part_of(bytes[offsets::PART] as usize) else {
        return None;
    };
    recall::settings_from(bytes, scan_in(bytes), part)
}

// The chip that a record says, if the record is valid; refused as malformed if it is not.
pub fn read(bytes: &[u8]) -> Result<Chip, Refusal>
    ensures { result ≡ recalled_from bytes.now }
{
    if !memory_right(bytes) {
        return Err(Refusal::Malformed);
    }
    if !recall::in_range(bytes) {
        return Err(Refusal::Malformed);
    }
    let Some(frame) = resume::frame_in(bytes) else {
        return Err(Refusal::Malformed);
    };
    let Some(part) = ground::part_of(bytes[offsets::PART] as usize) else {
        return Err(Refusal::Malformed);
    };
    let Some(settings) = recall::settings_from(bytes, scan_in(bytes), part) else {
        return Err(Refusal::Malformed);
    };
    let memory = bytes.first_chunk().ok_or(Refusal::Malformed)?;
    let port = Port {
        memory: *memory,
        levels: frame.levels,
        phase: frame.phase,
        line: frame.line,
    };
    Ok(Chip { port, settings })
}

// What a port has in bytes 32 to 39. No From: neither type of it is of this crate.
fn frame_of(port: Port) -> Frame
    ensures { result ≡ framed port.levels port.phase port.line }
{
    Frame {
        levels: port.levels,
        phase: port.phase,
        line: port.line,
    }
}

// The memory's bytes. How many they are is said for the callers' proofs.
fn put_memory(memory: [u8; ADDRESSES], out: &mut [u8])
    requires { addresses ≤ length out.old }
    ensures { (length memory ≡ addresses) × (out.new ≡ over out.old 0 memory) }
{
    out[..ADDRESSES].copy_from_slice(&memory);
}

// Of a record that a buffer holds, the port's bytes alone, 0 to 39: for a chip whose settings are as they were.
pub fn write_port(port: Port, out: &mut [u8]) -> Result<usize, Refusal>
    ensures { (result ≡ written_as settings_at out.old) × (out.new ≡ port_over port out.old) }
{
    phases::write_frame(frame_of(port), out)?;
    put_memory(port.memory, out);
    Ok(SETTINGS_AT)
}

// The chip's bytes over the start of a buffer. Not by `write_port` (tried; it misses the speed bar: with two callers that is put into
// neither, and a sample takes three tenths longer).
pub fn write(chip: Chip, out: &mut [u8]) -> Result<usize, Refusal>
    ensures { (result ≡ written_as record_length out.old) × (out.new ≡ written_over chip out.old) }
{
    phases::write_frame(frame_of(chip.port), out)?;
    put_memory(chip.port.memory, out);
    settings::write_settings(chip.settings, out)?;
    Ok(RECORD_LENGTH)
}
