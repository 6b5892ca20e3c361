// What ticks of the system clock do to the settings. All goes by value. Assumes nothing.
#![tactic(auto)]

ghost use Rattle.std.specs.Prelude.{◌≡◌};
ghost use Rattle.ticks.specs.Ticks.{running, ticked, advanced};

use clock::Source;
use settings::Settings;

// Whether the clock runs.
#[tactic(auto, unfolding(crate::specs::Ticks::running))]
pub fn running(settings: Settings) -> bool
    ensures { result ≡ running settings }
{
    settings.system.on || matches!(settings.system.source, Source::Ext)
}

// The settings after `ticks` single ticks, without walking. Counters and scan go by the same base ticks, which the compiler works out once.
// Set in place and not by a struct update, which takes 16 bytes of stack more than the header of `advance` allows. Put into each caller: a
// program with several calls would else hand the settings over in memory, and a call take 1.4 to 1.7 times as long (tried). `ticked` and the
// chip's two are put there with it, since what has it inside is too large to be put there else.
#[tactic(auto, using(crate::proofs::TicksLaws::advanced_still, crate::proofs::TicksLaws::advanced_at_once))]
#[inline(always)]
pub fn advanced(settings: Settings, ticks: u16) -> Settings
    ensures { result ≡ advanced ticks settings }
{
    if !running(settings) {
        return settings;
    }
    let source = settings.system.source;
    let base = settings.base;
    let base_ticks = settings.counters.prescaler.base_ticks(source, ticks);
    let mut next = settings;
    next.counters = settings
        .counters
        .ticked_by(source, base.on, base.rate, ticks);
    next.scan = settings
        .scan
        .stepped_by(settings.part, settings.lcd.commons, base_ticks);
    next
}

// The settings after one tick of the system clock.
#[tactic(auto, unfolding(crate::specs::Ticks::advanced))]
#[inline(always)]
pub fn ticked(settings: Settings) -> Settings
    ensures { result ≡ ticked settings }
{
    advanced(settings, 1)
}
