// Lists some inputs and compares each listing with the fixed bytes that it should be; writes `ok`, or `wrong`. Assumes
// nothing.
#![tactic(auto)]

ghost use Rattle.std.specs.Prelude.{◌≡◌, length};

use std::io;

// The buffers are of fixed lengths, as a host lends them, and made in functions of their own, so that a proof of what uses one does not
// compute with each of its bytes. This one is listing's too: a program lends no function to another.
fn out_buffer() -> [u8; 1572880] {
    [0; 1572880]
}

// An input of so many ticks.
fn ticks_of<const N: usize>() -> [u8; N]
    ensures { N ≡ length result }
{
    [b't'; N]
}

// Whether an input is listed as these bytes.
fn listed_as(input: &[u8], expected: &[u8]) -> bool {
    let mut out = out_buffer();
    match transcript::list(input, &mut out) {
        Ok(written) => &out[..written] == expected,
        Err(_) => false,
    }
}

// Whether `long` comes for an input that is one byte too long, and not for one as long as may be.
fn long_line() -> bool {
    listed_as(&ticks_of::<65537>(), b"long\n") && listed_as(&ticks_of::<65536>(), b"end 0 65536\n")
}

// Whether bytes that are no digit, tick or blank are bad: a tab, a carriage return, a capital letter.
fn bad_line() -> bool {
    listed_as(b"t t\tt", b"bad 3\n")
        && listed_as(b"fe\r\n", b"2 1 0 0\nbad 2\n")
        && listed_as(b"Afe", b"bad 0\n")
}

// Whether the bytes beside the digits and beside the letters are bad.
fn bad_neighbour() -> bool {
    listed_as(b"f/", b"bad 1\n")
        && listed_as(b"f:", b"bad 1\n")
        && listed_as(b"f`", b"bad 1\n")
        && listed_as(b"fg", b"bad 1\n")
}

// Whether an input without a line of its own is counted.
fn last_line() -> bool {
    listed_as(b"t t\n", b"end 0 2\n")
}

// Whether the three fixed lines come where they should.
fn fixed_lines() -> bool {
    long_line() && bad_line() && bad_neighbour() && last_line()
}

fn main(rt: HostRuntime) -> io::Result<()> {
    if fixed_lines() {
        println!(rt; "ok")
    } else {
        println!(rt; "wrong")
    }
}
