// The simulator's three calls as a library for C, with the prefix ht1621_: with what host_c exports they are libht1621.a. Assumes nothing.
// simulator_c has the same three under other names, since C has no modules to tell them apart.
// What they return are numbers, a refusal's too, since the callers are in C.
#![tactic(auto)]

ghost use Rattle.std.specs.Prelude.{◌≡◌};
ghost use Rattle.simulator.specs.Simulator.{step_returns, step_bytes, advance_returns, advance_bytes};
ghost use Rattle.simulator.specs.Simulator.{pins_returns, pins_bytes};

// A sample, as `simulator::step` takes it.
#[unsafe(no_mangle)]
pub extern "C" fn ht1621_step(bytes: &mut [u8], sample: u8) -> u32
    ensures { (result ≡ step_returns bytes.old sample)
        × (bytes.new ≡ step_bytes bytes.old sample) }
{
    simulator::step(bytes, sample)
}

// So many single ticks, as `simulator::advance` counts them.
#[unsafe(no_mangle)]
pub extern "C" fn ht1621_advance(bytes: &mut [u8], n: u16) -> u32
    ensures { (result ≡ advance_returns bytes.old)
        × (bytes.new ≡ advance_bytes bytes.old n) }
{
    simulator::advance(bytes, n)
}

// The pins and the cells that show, as `simulator::pins` gives them.
#[unsafe(no_mangle)]
pub extern "C" fn ht1621_pins(bytes: &[u8], out: &mut [u8]) -> u32
    ensures { (result ≡ pins_returns bytes.now out.old)
        × (out.new ≡ pins_bytes bytes.now out.old) }
{
    simulator::pins(bytes, out)
}
