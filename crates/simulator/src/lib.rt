// The simulator's library for C: the host keeps the chip as a 64-byte record and lends it to each call. A refused call
// returns the refusal's number and changes no byte. Assumes nothing.
#![tactic(auto)]

ghost use Rattle.std.specs.Prelude.{◌≡◌, map, ◌+◌, ◌*◌, ◌≤◌, length, take};
ghost use Rattle.std.specs.Int.Bits.{bit_and};
ghost use Rattle.ground.specs.Sizes.{addresses};
ghost use Rattle.ground.specs.Bits.{bit_number};
ghost use Rattle.ground.specs.Written.{over};
ghost use Rattle.pins.specs.Pins.{irq_low, bz_high, partner_high};
ghost use Rattle.simulator.specs.Simulator.{returned, answer_code, step_returns, step_bytes, advance_returns, advance_bytes};
ghost use Rattle.simulator.specs.Simulator.{pins_returns, pins_bytes};

use answers::{Answer, Numbers};
use ground::{ADDRESSES, Refusal};
use settings::Settings;

// What a call for C returns: its number, or the refusal's. Numbers, since the callers are in C; what comes before is a Result.
fn returned(answer: Result<u32, Refusal>) -> u32
    ensures { result ≡ returned answer }
{
    match answer {
        Ok(number) => number,
        Err(why) => u32::from(u8::from(why)),
    }
}

// An answer and its two details, as a call returns them. No From: `answers` has the numbers, and one number of three is C's.
#[tactic(auto, unfolding(crate::specs::Simulator::answer_code))]
fn code_of(answer: Answer) -> u32
    ensures { result ≡ answer_code answer }
{
    let told = Numbers::from(answer);
    told.number as u32 + 256 * (told.first as u32) + 65536 * (told.second as u32)
}

// The pins but for the cells, as one number: IRQ, BZ and its partner by the settings, and byte 39.
fn pins_code(settings: Settings, line: u8) -> u32
    ensures { result ≡ bit_number (irq_low settings) + 2 * bit_number (bz_high settings)
        + 4 * bit_number (partner_high settings) + 8 * line }
{
    let irq = pins::irq_low(settings);
    let bz = pins::bz_high(settings);
    let partner = pins::partner_high(settings);
    (irq as u32) + 2 * (bz as u32) + 4 * (partner as u32) + 8 * (line as u32)
}

// The memory's bytes under a mask over the start of a buffer. By their index: an array made by `map` and copied takes thrice as long
// (tried; it misses the speed bar), and of `iter_mut` a proof knows no element (tried; it did not close).
fn show(bytes: &[u8], mask: u8, out: &mut [u8])
    requires memory_there { addresses ≤ length bytes.now }
    requires room_for_cells { addresses ≤ length out.old }
    ensures { out.new ≡ over out.old 0 (map (λ n. bit_and n mask) (take addresses bytes.now)) }
{
    for i in 0..ADDRESSES {
        out[i] = bytes[i] & mask;
    }
}

// What `step` answers. Only an obeyed command changes the settings; after any other sample the port alone is written back.
fn stepped(bytes: &mut [u8], sample: u8) -> Result<u32, Refusal>
    ensures { (returned result ≡ step_returns bytes.old sample)
        × (bytes.new ≡ step_bytes bytes.old sample) }
{
    let chip = state::read(bytes)?;
    if 15 < sample {
        return Err(Refusal::SampleAbove);
    }
    let done = inplace::step_by_lending(chip, sample);
    let code = code_of(done.answer);
    if let Answer::Obeyed(_) = done.answer {
        state::write(done.chip, bytes)?;
        return Ok(code);
    }
    state::write_port(done.chip.port, bytes)?;
    Ok(code)
}

// What `pins` answers.
fn shown(bytes: &[u8], out: &mut [u8]) -> Result<u32, Refusal>
    ensures { (returned result ≡ pins_returns bytes.now out.old)
        × (out.new ≡ pins_bytes bytes.now out.old) }
{
    let settings = state::settings_in(bytes).ok_or(Refusal::Malformed)?;
    if out.len() < ADDRESSES {
        return Err(Refusal::OutputShort);
    }
    show(bytes, pins::shown_mask(settings), out);
    Ok(pins_code(settings, bytes[phases::DATA_AT]))
}

// A sample: returns its answer in the lowest byte, the first detail in the next and the second in the third.
pub fn step(bytes: &mut [u8], sample: u8) -> u32
    ensures { (result ≡ step_returns bytes.old sample)
        × (bytes.new ≡ step_bytes bytes.old sample) }
{
    returned(stepped(bytes, sample))
}

// So many single ticks: returns 0. They change the counters and the scan alone, so only the bytes from these on are written back. Written
// out, with no function that answers a Result as for the others: with one it takes 288 bytes of stack (tried), and the header says of this
// call that it takes at most 256.
pub fn advance(bytes: &mut [u8], n: u16) -> u32
    ensures { (result ≡ advance_returns bytes.old)
        × (bytes.new ≡ advance_bytes bytes.old n) }
{
    let Some(settings) = state::settings_in(bytes) else {
        return returned(Err(Refusal::Malformed));
    };
    match settings::write_counters(ticks::advanced(settings, n), bytes) {
        Ok(_) => 0,
        Err(why) => returned(Err(why)),
    }
}

// The pins: returns them as one number, and writes the cells that show as 32 nibbles.
pub fn pins(bytes: &[u8], out: &mut [u8]) -> u32
    ensures { (result ≡ pins_returns bytes.now out.old)
        × (out.new ≡ pins_bytes bytes.now out.old) }
{
    returned(shown(bytes, out))
}
