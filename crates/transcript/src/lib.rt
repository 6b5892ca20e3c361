// The listing as one function, from the bytes of the input to the bytes of the output. Assumes nothing.
#![tactic(auto)]

ghost use Rattle.std.specs.Prelude.{◌≡◌, ◌+◌, ◌*◌, ◌%◌, ◌≤◌, ◌<◌, length};
ghost use Rattle.ground.specs.Outcomes.{ComesTo};
ghost use Rattle.ground.specs.Written.{Wrote};
ghost use Rattle.power.specs.PowerOn.{empty_chip};
ghost use Rattle.listed.specs.Listing.{class_of, field, line, answer_line, bad_line, end_line};
ghost use Rattle.listed.specs.Listing.{list_from, listing, room_for, list_answer};

use answers::{Answer, Numbers};
use ground::Refusal;
use listed::Class;

// The bytes of the longest input that is listed.
const LONGEST: usize = 65536;

// What a byte of the input is. No From: the byte's type and the enum are both of other crates. No `to_digit` either: it takes capital
// letters too.
#[tactic(auto, unfolding(listed::specs::Listing::class_of))]
fn classify(byte: u8) -> Class
    ensures { result ≡ class_of byte }
{
    match byte {
        b'0'..=b'9' => Class::Sample(byte - b'0'),
        b'a'..=b'f' => Class::Sample(byte - b'a' + 10),
        b't' => Class::Tick,
        b' ' | b'\n' => Class::Skipped,
        _ => Class::Bad,
    }
}

// Bytes at a cursor; the result is the cursor after them. As `put` of streams, and not shared with it: it would be a public function that
// asks something of its callers, and the pack has none.
// Buffer and cursor are no struct: it would lend a buffer that is lent already, and each contract would speak of both all the same.
fn put_bytes<const N: usize>(out: &mut [u8], at: usize, bytes: [u8; N]) -> usize
    requires { at + N ≤ length out.old }
    ensures { Wrote out.old at bytes.entry out.new result }
{
    let end = at + N;
    out[at..end].copy_from_slice(&bytes);
    end
}

// The last digit of a number. Decimals are made here and not by std's formatting, which writes to a writer: what is promised of a listing
// is the bytes that stand in the buffer lent.
fn digit(n: u32) -> u8
    ensures { result ≡ 48 + n % 10 }
{
    b'0' + (n % 10) as u8
}

// A number in decimal and the byte that ends it. That it has five digits at most each of these functions asks: a type for such numbers
// would have to prove it wherever one is made, which is at each of the calls.
fn put_field(out: &mut [u8], at: usize, n: u32, after: u8) -> usize
    requires { (n < 100000) × (at + 6 ≤ length out.old) }
    ensures { Wrote out.old at (field n after) out.new result }
{
    let ones = digit(n);
    let tens = digit(n / 10);
    let hundreds = digit(n / 100);
    let thousands = digit(n / 1000);
    match n {
        0..=9 => put_bytes(out, at, [ones, after]),
        10..=99 => put_bytes(out, at, [tens, ones, after]),
        100..=999 => put_bytes(out, at, [hundreds, tens, ones, after]),
        1000..=9999 => put_bytes(out, at, [thousands, hundreds, tens, ones, after]),
        _ => put_bytes(
            out,
            at,
            [digit(n / 10000), thousands, hundreds, tens, ones, after],
        ),
    }
}

// A line of four numbers.
fn put_line(out: &mut [u8], at: usize, number: u32, told: Numbers) -> usize
    requires { (number < 100000) × (at + 24 ≤ length out.old) }
    ensures { Wrote out.old at (line number told.number told.first told.second) out.new result }
{
    let at = put_field(out, at, number, b' ');
    let at = put_field(out, at, u32::from(told.number), b' ');
    let at = put_field(out, at, u32::from(told.first), b' ');
    put_field(out, at, u32::from(told.second), b'\n')
}

// The line of an answer, where it has one.
fn put_answer(out: &mut [u8], at: usize, number: u32, answer: Answer) -> usize
    requires { (number < 100000) × (at + 24 ≤ length out.old) }
    ensures { Wrote out.old at (answer_line number answer) out.new result }
{
    match answer {
        Answer::Nothing | Answer::Taken => at,
        _ => put_line(out, at, number, Numbers::from(answer)),
    }
}

// The line that stops at a byte.
fn put_bad(out: &mut [u8], at: usize, offset: u32) -> usize
    requires { (offset < 100000) × (at + 16 ≤ length out.old) }
    ensures { Wrote out.old at (bad_line offset) out.new result }
{
    let at = put_bytes(out, at, *b"bad ");
    put_field(out, at, offset, b'\n')
}

// The last line.
fn put_end(out: &mut [u8], at: usize, samples: u32, ticks: u32) -> usize
    requires { (samples < 100000) × (ticks < 100000) × (at + 16 ≤ length out.old) }
    ensures { Wrote out.old at (end_line samples ticks) out.new result }
{
    let at = put_bytes(out, at, *b"end ");
    let at = put_field(out, at, samples, b' ');
    put_field(out, at, ticks, b'\n')
}

// The lines of an input that is not too long.
fn put_lines(input: &[u8], out: &mut [u8]) -> usize
    requires { (length input.now ≤ 65536) × (24 * length input.now + 16 ≤ length out.old) }
    ensures { Wrote out.old 0 (list_from empty_chip 0 0 0 input.now) out.new result }
{
    let mut chip = power::empty();
    let mut at = 0;
    let mut samples = 0;
    let mut ticks = 0;
    for (offset, byte) in input.iter().enumerate() {
        match classify(*byte) {
            Class::Sample(value) => {
                let stepped = chip.step(value);
                chip = stepped.chip;
                samples += 1;
                at = put_answer(out, at, samples, stepped.answer);
            }
            Class::Tick => {
                chip = chip.tick();
                ticks += 1;
            }
            Class::Skipped => {}
            Class::Bad => return put_bad(out, at, offset as u32),
        }
    }
    put_end(out, at, samples, ticks)
}

// The bytes of output that hold the listing of any input of `count` bytes.
pub fn room(count: usize) -> usize
    ensures { result ≡ room_for count }
{
    24 * count.min(LONGEST) + 16
}

// The listing of an input, at the start of `out`, which has at least the room for it.
pub fn list(input: &[u8], out: &mut [u8]) -> Result<usize, Refusal>
    ensures { ComesTo
        (list_answer input.now (length out.old))
        (listing input.now)
        out.old result out.new }
{
    if out.len() < room(input.len()) {
        return Err(Refusal::OutputShort);
    }
    let too_long = LONGEST < input.len();
    if too_long {
        return Ok(put_bytes(out, 0, *b"long\n"));
    }
    Ok(put_lines(input, out))
}
