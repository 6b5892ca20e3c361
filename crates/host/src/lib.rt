// The maker's library for C: a chip's record at power-on, streams for writes, reads and commands, and the meaning of what
// a read noted. Each call returns the number of bytes that it wrote at the start of the buffer lent, or 2^31 + 256 x place
// + the refusal's number. A refused call changes no byte, and a success none after those written. Assumes nothing.
#![tactic(auto)]

ghost use Rattle.std.specs.Prelude.{◌≡◌, ◌<◌, length};
ghost use Rattle.ground.specs.Outcomes.{ComesTo};
ghost use Rattle.host.specs.Host.{refused_code, host_code, power_on_record, power_on_answer};
ghost use Rattle.host.specs.Host.{power_on_returns, power_on_bytes, write_returns, write_bytes, read_returns, read_bytes};
ghost use Rattle.host.specs.Host.{commands_returns, commands_bytes, decode_returns, decode_bytes};

use ground::Refusal;

// A refusal and its place as one number, where 32 bits hold it, since the callers are in C. No From: it asks that 32 bits hold it.
#[tactic(auto, unfolding(crate::specs::Host::host_code))]
fn refused_code(refusal: Refusal) -> u32
    requires { refused_code refusal < 4294967296 }
    ensures { result ≡ refused_code refusal }
{
    2147483648 + 256 * (refusal.place() as u32) + u8::from(refusal) as u32
}

// An outcome as one number, where 32 bits hold it, since the callers are in C. No From: it asks that 32 bits hold it.
#[tactic(auto, unfolding(crate::specs::Host::host_code))]
fn code_of(outcome: Result<usize, Refusal>) -> u32
    requires { host_code outcome < 4294967296 }
    ensures { result ≡ host_code outcome }
{
    match outcome {
        Ok(count) => count as u32,
        Err(refusal) => refused_code(refusal),
    }
}

// The record of a chip that has just been powered on. What power-on refuses comes first, a buffer too short last.
#[tactic(auto, unfolding(state::specs::Answers::written_over), using(crate::proofs::HostLaws::power_on_refused, crate::proofs::HostLaws::power_on_done))]
fn powered_on(part: usize, memory: &[u8], bytes: &mut [u8]) -> Result<usize, Refusal>
    ensures { ComesTo
        (power_on_answer part memory.now (length bytes.old))
        (power_on_record part memory.now)
        bytes.old result bytes.new }
{
    let chip = power::power_on(part, memory)?;
    state::write(chip, bytes)
}

// Power-on: writes the 64-byte record of a chip of the part with this number, with these 32 nibbles for its memory. Refused, in this
// order: a part that is none; a memory that is not 32 values; a value above 15, with its place; a buffer shorter than 64 bytes.
#[tactic(auto, unfolding(crate::specs::Host::power_on_returns, crate::specs::Host::power_on_bytes), using(crate::proofs::HostLaws::power_on_held, crate::proofs::HostLaws::comes_told))]
pub fn ht1621_power_on(part: usize, memory: &[u8], bytes: &mut [u8]) -> u32
    ensures { (result ≡ power_on_returns part memory.now bytes.old)
        × (bytes.new ≡ power_on_bytes part memory.now bytes.old) }
{
    code_of(powered_on(part, memory, bytes))
}

// The stream that writes nibbles from the address `first` on. Refused as `driver::write` is:
// 21, 22, 30, 23 with its place, 25.
#[tactic(auto, unfolding(crate::specs::Host::write_returns, crate::specs::Host::write_bytes), using(crate::proofs::CodesLaws::write_held, crate::proofs::HostLaws::comes_told))]
pub fn ht1621_write(first: usize, nibbles: &[u8], out: &mut [u8]) -> u32
    ensures { (result ≡ write_returns first nibbles.now out.old)
        × (out.new ≡ write_bytes first nibbles.now out.old) }
{
    code_of(driver::write(first, nibbles, out))
}

// The stream that reads `count` nibbles from the address `first` on. Refused as `driver::read` is:
// 21, 22, 30, 25.
#[tactic(auto, unfolding(crate::specs::Host::read_returns, crate::specs::Host::read_bytes), using(crate::proofs::CodesLaws::read_held, crate::proofs::HostLaws::comes_told))]
pub fn ht1621_read(first: usize, count: usize, out: &mut [u8]) -> u32
    ensures { (result ≡ read_returns first count out.old)
        × (out.new ≡ read_bytes first count out.old) }
{
    code_of(driver::read(first, count, out))
}

// The stream that gives commands to a chip of the part with this number, each by the byte of its upper eight bits. Refused as
// `driver::commands` is: 43, 21, 31, 24 with its place, 25.
#[tactic(auto, unfolding(crate::specs::Host::commands_returns, crate::specs::Host::commands_bytes), using(crate::proofs::CodesLaws::commands_held, crate::proofs::HostLaws::comes_told))]
pub fn ht1621_commands(part: usize, codes: &[u8], out: &mut [u8]) -> u32
    ensures { (result ≡ commands_returns part codes.now out.old)
        × (out.new ≡ commands_bytes part codes.now out.old) }
{
    code_of(driver::commands(part, codes, out))
}

// The nibbles that a read noted, a byte for each. Refused as `driver::decode` is:
// 26, 27 with its place, 25.
#[tactic(auto, unfolding(crate::specs::Host::decode_returns, crate::specs::Host::decode_bytes), using(crate::proofs::CodesLaws::decode_held, crate::proofs::HostLaws::comes_told))]
pub fn ht1621_decode(noted: &[u8], out: &mut [u8]) -> u32
    ensures { (result ≡ decode_returns noted.now out.old)
        × (out.new ≡ decode_bytes noted.now out.old) }
{
    code_of(driver::decode(noted, out))
}
