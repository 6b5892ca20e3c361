// The five calls of the maker's side as a library for C: libhost.a. Assumes nothing.
// What they return are numbers, a refusal's too, since the callers are in C.
#![tactic(auto)]

ghost use Rattle.std.specs.Prelude.{◌≡◌};
ghost use Rattle.host.specs.Host.{power_on_returns, power_on_bytes, write_returns, write_bytes};
ghost use Rattle.host.specs.Host.{read_returns, read_bytes, commands_returns, commands_bytes};
ghost use Rattle.host.specs.Host.{decode_returns, decode_bytes};

// A chip's record at power-on, as `host::ht1621_power_on` writes it.
#[unsafe(no_mangle)]
pub extern "C" fn ht1621_power_on(part: usize, memory: &[u8], bytes: &mut [u8]) -> u32
    ensures { (result ≡ power_on_returns part memory.now bytes.old)
        × (bytes.new ≡ power_on_bytes part memory.now bytes.old) }
{
    host::ht1621_power_on(part, memory, bytes)
}

// The stream that writes nibbles, as `host::ht1621_write` makes it.
#[unsafe(no_mangle)]
pub extern "C" fn ht1621_write(first: usize, nibbles: &[u8], out: &mut [u8]) -> u32
    ensures { (result ≡ write_returns first nibbles.now out.old)
        × (out.new ≡ write_bytes first nibbles.now out.old) }
{
    host::ht1621_write(first, nibbles, out)
}

// The stream that reads nibbles, as `host::ht1621_read` makes it.
#[unsafe(no_mangle)]
pub extern "C" fn ht1621_read(first: usize, count: usize, out: &mut [u8]) -> u32
    ensures { (result ≡ read_returns first count out.old)
        × (out.new ≡ read_bytes first count out.old) }
{
    host::ht1621_read(first, count, out)
}

// The stream that gives commands, as `host::ht1621_commands` makes it.
#[unsafe(no_mangle)]
pub extern "C" fn ht1621_commands(part: usize, codes: &[u8], out: &mut [u8]) -> u32
    ensures { (result ≡ commands_returns part codes.now out.old)
        × (out.new ≡ commands_bytes part codes.now out.old) }
{
    host::ht1621_commands(part, codes, out)
}

// The nibbles that a read noted, as `host::ht1621_decode` tells them.
#[unsafe(no_mangle)]
pub extern "C" fn ht1621_decode(noted: &[u8], out: &mut [u8]) -> u32
    ensures { (result ≡ decode_returns noted.now out.old)
        × (out.new ≡ decode_bytes noted.now out.old) }
{
    host::ht1621_decode(noted, out)
}
