// Answers a script of calls, to be held against an outside authority: the file `stdout` beside `src` is what the independent
// model of tests/model writes for the file `stdin`. A line of the script is a letter and what it needs; numbers and bytes are
// in hex, and so is what is written:
//     = BYTES               a list of bytes for the calls after it: a record, nibbles, codes, noted bytes or a memory
//     s TICKS CAPTURE       on a copy of the list, `step` for each digit, where `g` is sample 16, and `advance` by so many
//                           ticks for each `t`: writes what each call returned, the pins and cells, and the copy
//     p, d ROOM             `pins` and decoding of the list: writes what the call returned, and the buffer
//     o, c ROOM PART        power-on and commands, of a part, likewise
//     w ROOM FIRST          the writing of the list
//     r ROOM FIRST COUNT    the reading
//     # WORDS               writes the line as it stands
// TICKS has 4 digits, ROOM 3, PART, FIRST and COUNT have 16. The buffer lent is as long as ROOM says and filled with 5a before, so
// that it shows what was not written; for the cells of a capture it is 33 bytes. Of the script 262,144 bytes are read, of a
// list 160, and at most 600 bytes are lent. Assumes nothing.
#![tactic(auto)]

ghost use Rattle.std.specs.Prelude.{◌≡◌, ◌≤◌, length, IfOk};
ghost use Rattle.vectors.specs.Vectors.{sample_of};

use std::io;
use std::io::Read;

// The sample of a digit. No `to_digit`: a byte that is no digit gives a number too, so that there is nothing to refuse.
#[tactic(auto, unfolding(crate::specs::Vectors::sample_of))]
fn sample_of(byte: u8) -> u8
    ensures { result ≡ sample_of byte }
{
    if byte < b'a' {
        return byte % b'0';
    }
    byte - b'a' + 10
}

// The number of a hex digit.
fn nibble_of(byte: u8) -> usize
    ensures { result ≤ 15 }
{
    (sample_of(byte) % 16) as usize
}

// A byte of two hex digits.
fn byte_of(high: u8, low: u8) -> u8 {
    (16 * nibble_of(high) + nibble_of(low)) as u8
}

// The number of hex digits, of which the last 16 count: modulo 2^60, which is 1152921504606846976, the last 15 stay before
// one more comes.
fn number_of(digits: &[u8]) -> usize {
    digits.iter().fold(0, |number, digit| {
        number % 1152921504606846976 * 16 + nibble_of(*digit)
    })
}

// The number in some columns of a line, or 0 where the line is too short for them.
fn field(line: &[u8], from: usize, to: usize) -> usize {
    line.get(from..to).map_or(0, number_of)
}

// Puts the bytes that a line lists into a buffer, as many as it takes, and says how many there are.
fn put_list(line: &[u8], bytes: &mut [u8]) -> usize {
    let digits = line.get(2..).unwrap_or(&[]);
    for (byte, pair) in bytes.iter_mut().zip(digits.chunks_exact(2)) {
        *byte = byte_of(pair[0], pair[1]);
    }
    bytes.len().min(digits.len() / 2)
}

// The first bytes of a buffer, or all of them.
fn first_of(bytes: &mut [u8], count: usize) -> &mut [u8] {
    let count = count.min(bytes.len());
    &mut bytes[..count]
}

// Ends a line.
fn end_line(rt: &impl Print) -> io::Result<()> {
    rt.write_all(b"\n")
}

// Writes what a call returned.
fn show_returned(rt: &impl Print, returned: u32) -> io::Result<()> {
    print!(rt; "{returned:x} ")
}

// Writes bytes as a line of hex digits.
fn show(rt: &impl Print, bytes: &[u8]) -> io::Result<()> {
    for byte in bytes {
        print!(rt; "{byte:02x}")?;
    }
    end_line(rt)
}

// Writes a line as it stands.
fn repeat(rt: &impl Print, line: &[u8]) -> io::Result<()> {
    rt.write_all(line)?;
    end_line(rt)
}

// The letter of a line.
fn letter_of(line: &[u8]) -> u8 {
    line.first().copied().unwrap_or(b'#')
}

// A call of a capture.
fn stepped(record: &mut [u8], byte: u8, ticks: u16) -> u32 {
    if byte == b't' {
        return simulator::advance(record, ticks);
    }
    simulator::step(record, sample_of(byte))
}

// All calls of a capture.
fn run(rt: &impl Print, line: &[u8], record: &mut [u8]) -> io::Result<()> {
    let ticks = (field(line, 2, 6) % 65536) as u16;
    for byte in line.get(7..).unwrap_or(&[]) {
        show_returned(rt, stepped(record, *byte, ticks))?;
    }
    Ok(())
}

// The call that a letter stands for, of those that lend a buffer. Another letter calls nothing and comes to 0. A match and no table of
// functions: each letter stands in one place, and the calls take different arguments.
fn called(letter: u8, line: &[u8], bytes: &[u8], out: &mut [u8]) -> u32 {
    let first = field(line, 6, 22); // the first address, or the part
    let count = field(line, 23, 39);
    match letter {
        b'o' => host::ht1621_power_on(first, bytes, out),
        b'w' => host::ht1621_write(first, bytes, out),
        b'r' => host::ht1621_read(first, count, out),
        b'c' => host::ht1621_commands(first, bytes, out),
        b'd' => host::ht1621_decode(bytes, out),
        b'p' => simulator::pins(bytes, out),
        _ => 0,
    }
}

// Makes such a call, and writes what it returned and the buffer. The line, its bytes and the buffer go on as they are, here and below: a
// struct of the three would lend what is lent already.
fn show_called(
    rt: &impl Print,
    letter: u8,
    line: &[u8],
    bytes: &[u8],
    out: &mut [u8],
) -> io::Result<()> {
    show_returned(rt, called(letter, line, bytes, out))?;
    show(rt, out)
}

// Runs a capture, and writes the pins, the cells and the bytes of the record that it leaves.
fn show_run(rt: &impl Print, line: &[u8], record: &mut [u8], cells: &mut [u8]) -> io::Result<()> {
    run(rt, line, record)?;
    end_line(rt)?;
    show_called(rt, b'p', line, record, cells)?;
    show(rt, record)
}

// Answers a line about a list of bytes, with a buffer to lend. A match and no table of functions: each letter stands in one place.
fn answer_about(
    rt: &impl Print,
    line: &[u8],
    bytes: &mut [u8],
    space: &mut [u8],
) -> io::Result<()> {
    let letter = letter_of(line);
    match letter {
        b'=' => Ok(()),
        b'#' => repeat(rt, line),
        b's' => show_run(rt, line, bytes, first_of(space, 33)),
        _ => show_called(rt, letter, line, bytes, first_of(space, field(line, 2, 5))),
    }
}

// Answers a line, given the line of its list and the space for the list's bytes and for the buffer.
fn answer_with(
    rt: &impl Print,
    line: &[u8],
    list: &[u8],
    bytes: &mut [u8],
    space: &mut [u8],
) -> io::Result<()> {
    let count = put_list(list, bytes);
    answer_about(rt, line, first_of(bytes, count), space)
}

// Answers a line, given the line of the list that it is about. The buffers are of fixed lengths: no call of the script lends more.
fn answer(rt: &impl Print, line: &[u8], list: &[u8]) -> io::Result<()> {
    let mut bytes = [0u8; 160];
    let mut space = [90u8; 600];
    answer_with(rt, line, list, &mut bytes, &mut space)
}

// Answers every line. The list of a line is the last one up to it, and before the first list the script's first line.
fn answer_all(rt: &impl Print, script: &[u8]) -> io::Result<()> {
    if script.is_empty() {
        return Ok(());
    }
    let lines = script.strip_suffix(b"\n").unwrap_or(script);
    let mut list: &[u8] = &[];
    for (number, line) in lines.split(|byte| *byte == b'\n').enumerate() {
        if number == 0 || letter_of(line) == b'=' {
            list = line;
        }
        answer(rt, line, list)?;
    }
    Ok(())
}

// Fills a buffer from standard input as far as that goes, and says how many bytes came. A loop over `read`, since `read_to_end` reads
// to the heap and so could fail for want of memory, and `read_exact` does not say how many bytes came. As listing's: a program lends no
// function to another.
fn read_full(reader: &mut impl Read, bytes: &mut [u8]) -> io::Result<usize>
    ensures { IfOk result (λ count. count ≤ length bytes.new) }
{
    let mut done = 0;
    while done < bytes.len() {
        let came = reader.read(&mut bytes[done..])?;
        if came == 0 {
            break;
        }
        done += came;
    }
    Ok(done)
}

// As many bytes of the script are read as this buffer has.
fn main(rt: HostRuntime) -> io::Result<()> {
    let mut input = [0u8; 262144];
    let count = read_full(&mut rt.reader(), &mut input)?;
    answer_all(&rt, &input[..count])
}
