// Parts of a stream written into a buffer at a cursor, and the bits that are sent of an address, a nibble and a command.
// Buffer and cursor are no struct: only `put` and `put_bits` would be its methods, and it would lend a buffer that is lent already.
ghost use Rattle.std.specs.Prelude.{◌≡◌, ◌+◌, ◌*◌, ◌≤◌, ◌<◌, length};
ghost use Rattle.ground.specs.Bits.{bit_at};
ghost use Rattle.ground.specs.Written.{Wrote};
ghost use Rattle.streams.specs.Streams.{send_bits, address_bits, nibble_bits, command_bits};

// Samples, just as they are. Transcript has its own, for the bytes of lines: one for both would be public, and have to refuse.
pub(crate) fn put<const N: usize>(out: &mut [u8], at: usize, samples: [u8; N]) -> usize
    requires { at + N ≤ length out.old }
    ensures { Wrote out.old at samples.entry out.new result }
{
    let next = at + N;
    out[at..next].copy_from_slice(&samples);
    next
}

// Bits, each in two samples with DATA at it: WR goes low, then high. An array, so that the compiler knows how many.
pub(crate) fn put_bits<const N: usize>(out: &mut [u8], at: usize, bits: &[bool; N]) -> usize
    requires { at + 2 * N ≤ length out.old }
    ensures { Wrote out.old at (send_bits bits.now) out.new result }
{
    let mut next = at;
    for bit in bits {
        let level = 8 * u8::from(*bit);
        next = put(out, next, [4 + level, 6 + level]);
    }
    next
}

// Bit `place` of a number, 0 the lowest. The chip has one of its own, in frames: it is asked for any place, and this one for those of a
// byte. One for both would be a public function, for one line of code.
fn bit_at(place: u8, number: u8) -> bool
    requires { place < 8 }
    ensures { result ≡ bit_at place number }
{
    (number >> place) % 2 == 1
}

// An address, A5 first.
pub(crate) fn address_bits(first: u8) -> [bool; 6]
    ensures { result ≡ address_bits first }
{
    [
        bit_at(5, first),
        bit_at(4, first),
        bit_at(3, first),
        bit_at(2, first),
        bit_at(1, first),
        bit_at(0, first),
    ]
}

// A nibble, D0 first.
pub(crate) fn nibble_bits(nibble: u8) -> [bool; 4]
    ensures { result ≡ nibble_bits nibble }
{
    [
        bit_at(0, nibble),
        bit_at(1, nibble),
        bit_at(2, nibble),
        bit_at(3, nibble),
    ]
}

// A command: its byte, the highest bit first, and a 0 that the chip ignores.
pub(crate) fn command_bits(code: u8) -> [bool; 9]
    ensures { result ≡ command_bits code }
{
    [
        bit_at(7, code),
        bit_at(6, code),
        bit_at(5, code),
        bit_at(4, code),
        bit_at(3, code),
        bit_at(2, code),
        bit_at(1, code),
        bit_at(0, code),
        false,
    ]
}
