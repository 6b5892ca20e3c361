// Reads standard input and writes its listing to standard output. Of the input 65,537 bytes are enough: so many are too
// many already. The output has the room for any input that is not too long. An input that cannot be read and an output
// that cannot be written are said on standard error. How it ended it says as a digit, which `./list` makes its status, on
// descriptor 3, where it is started with an argument.
#![tactic(auto)]

ghost use Rattle.std.specs.Prelude.{◌≡◌, ◌≤◌, length, IfOk};

use std::fs::{File, OpenFile};
use std::io::{ErrorKind, Read, Write};
use std::process::ExitCode;
use std::rt::{Env, Files};
use std::{env, io};

// How the program ended.
#[derive(Clone, Copy)]
enum End {
    Listed,
    NoCapture,
    NotRead,
    NotWritten,
}

impl From<End> for u8 {
    // The digit of the status that `./list` makes of it.
    fn from(end: End) -> u8 {
        match end {
            End::Listed => b'0',
            End::NoCapture => b'1',
            End::NotRead => b'3',
            End::NotWritten => b'4',
        }
    }
}

// The status by which a shell tells a program that a closed pipe ended.
const PIPE_CLOSED: u8 = 141;

// The buffers are of fixed lengths, so that input and listing ask for no memory, and made in functions of their own, so that a proof of
// what uses one does not compute with each of its bytes.
fn in_buffer() -> [u8; 65537]
    ensures { 65537 ≡ length result }
{
    [0; 65537]
}

fn out_buffer() -> [u8; 1572880] {
    [0; 1572880]
}

// Whether the program was started with an argument. One that is no text counts too, and so does a name of the program that is none.
fn has_argument(rt: &(impl Env + Alloc)) -> bool {
    match env::args(rt) {
        Ok(arguments) => arguments.count() > 1,
        Err(error) => error.kind() == ErrorKind::InvalidData,
    }
}

// Says on descriptor 3 how the program ended, for whoever started it with an argument. Where nothing is open there it says nothing.
fn tell(rt: &(impl Env + Alloc + Files), end: End) {
    if has_argument(rt) {
        if let Ok(mut descriptor) = File::options().append(true).open(rt, "/dev/fd/3") {
            let _ = descriptor.write_all(&[u8::from(end)]);
        }
    }
}

// Whether a listing goes to the end of its input: its last line is then `end`, and else `bad` or `long`.
fn is_whole(listing: &[u8]) -> bool {
    let lines = listing.strip_suffix(b"\n").unwrap_or(listing);
    let mut backwards = lines.rsplit(|byte| *byte == b'\n');
    backwards.next().is_some_and(|line| line.starts_with(b"e"))
}

// Says on standard error what could not be done, and why: in the system's words, without the number that stands behind them.
fn complain(rt: &(impl Eprint + Alloc), what: &str, error: io::Error) -> io::Result<()> {
    let said = format!(in rt.alloc(); "{error}")?;
    match said.as_str().split_once(" (os error ") {
        Some((message, _)) => eprintln!(rt; "listing: {what}: {message}"),
        None => eprintln!(rt; "listing: {what}: {said}"),
    }
}

// Fills a buffer from standard input as far as that goes, and says how many bytes came. A loop over `read`, since `read_to_end` reads
// to the heap and so could fail for want of memory, and `read_exact` does not say how many bytes came.
fn read_full(reader: &mut impl Read, bytes: &mut [u8]) -> io::Result<usize>
    ensures { IfOk result (λ count. count ≤ length bytes.new) }
{
    let mut done = 0;
    while done < bytes.len() {
        let came = reader.read(&mut bytes[done..])?;
        if came == 0 {
            break;
        }
        done += came;
    }
    Ok(done)
}

// Writes the listing, and says how the program ended. A pipe that nobody reads any more ends it without a word, as the signal would
// that other programs get then: a shell knows that by its status.
fn print(rt: &(impl Print + Eprint + Alloc + Env + Files), listing: &[u8]) -> ExitCode {
    if let Err(error) = rt.write_all(listing) {
        if error.kind() == ErrorKind::BrokenPipe {
            return ExitCode::from(PIPE_CLOSED);
        }
        let _ = complain(rt, "output", error);
        tell(rt, End::NotWritten);
    } else if is_whole(listing) {
        tell(rt, End::Listed);
    } else {
        tell(rt, End::NoCapture);
    }
    ExitCode::SUCCESS
}

fn main(rt: HostRuntime) -> ExitCode {
    let mut input = in_buffer();
    let count = match read_full(&mut rt.reader(), &mut input) {
        Ok(count) => count,
        Err(error) => {
            let _ = complain(&rt, "input", error);
            tell(&rt, End::NotRead);
            return ExitCode::SUCCESS;
        }
    };
    let mut out = out_buffer();
    match transcript::list(&input[..count], &mut out) {
        Ok(written) => print(&rt, &out[..written]),
        Err(_) => ExitCode::SUCCESS,
    }
}
