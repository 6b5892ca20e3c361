// The clock's counters: each is a small struct that goes in by value and comes back so many steps later. Nothing walks: where a counter
// stands then is a remainder, and how often it came back to 0 on the way, which steps the next one, a difference of two quotients.
#![tactic(auto)]

ghost use Rattle.std.specs.Prelude.{◌≡◌, ◌-◌, ◌<◌, ◌≤◌};
ghost use Rattle.commands.specs.Numbers.{commons_number};
ghost use Rattle.clock.specs.Numbers.{source_number};
ghost use Rattle.clock.specs.Sizes.{scan_size};
ghost use Rattle.clock.specs.Ticks.{watchdog_stepped, timer_stepped, scan_stepped, base_ticked, prescaled, counters_ticked, timer_cleared, watchdog_cleared};
ghost use Rattle.clock.specs.Walks.{next, walked, rounds, turns, base_ticks};

use commands::Commons;
use ground::Part;

// How many values each counter goes through. A constant each, and no enum of sizes: they are the numbers of `Counter`.
pub const PRESCALER_SIZE: u32 = 8;

pub const TONER_SIZE: u32 = 16;

pub const DIVIDER_SIZE: u32 = 128;

pub const BASE_SIZE: u32 = 256;

pub const WATCHDOG_SIZE: u32 = 4;

pub const HT_SCAN_SIZE: u32 = 128;

pub const GN_SCAN_SIZE: u32 = 96;

// Where the system clock comes from.
#[derive(Clone, Copy)]
pub enum Source {
    Xtal,
    Rc,
    Ext,
}

// A counter of so many values, which steps from the last of them to 0.
#[derive(Clone, Copy)]
pub struct Counter<const SIZE: u32> {
    pub count: u8,
}

// p: divides the 256 kHz of RC or EXT by 8.
pub type Prescaler = Counter<PRESCALER_SIZE>;

// q: the tone's phase.
pub type Toner = Counter<TONER_SIZE>;

// d: divides a base tick down to the rate.
pub type Divider = Counter<DIVIDER_SIZE>;

// b: the time base, whose upper half drives IRQ.
pub type BaseCounter = Counter<BASE_SIZE>;

// w and the time-out flag. The count is no `Counter`, nor are those of the scan: the definitions of a valid chip and of a record's bytes
// name it as it is, and the scan's sizes go by the part and the commons.
#[derive(Clone, Copy)]
pub struct Watchdog {
    pub count: u8,
    pub flag: bool,
}

// What runs while the time base is on.
#[derive(Clone, Copy)]
pub struct Timer {
    pub divider: Divider,
    pub base: BaseCounter,
    pub watchdog: Watchdog,
}

#[derive(Clone, Copy)]
pub struct Counters {
    pub prescaler: Prescaler,
    pub toner: Toner,
    pub timer: Timer,
}

// The scan of the LCD: how far it is with a common, and which one.
#[derive(Clone, Copy)]
pub struct Scan {
    pub count: u8,
    pub common: u8,
}

impl From<Source> for u8 {
    ghost from_gives = { λ source number. number ≡ source_number source };

    // Its number in the state record.
    fn from(source: Source) -> u8
        ensures { result ≡ source_number source }
    {
        match source {
            Source::Xtal => 0,
            Source::Rc => 1,
            Source::Ext => 2,
        }
    }
}

// That a size is no 0, and fits a byte, each that needs it asks: a const parameter takes no invariant.
impl<const SIZE: u32> Counter<SIZE> {
    // So many steps later. A counter that makes none stays where it is, also out of its range.
    #[tactic(auto, using(crate::proofs::QuotientLaws::walked_landing), unfolding(crate::specs::Walks::walked))]
    fn stepped_by(self, steps: u16) -> Self
        requires some { 0 < SIZE }
        requires fits { SIZE ≤ 256 }
        ensures { result ≡ record { count = walked (next SIZE) steps self.entry.count } }
    {
        if steps == 0 {
            return self;
        }
        let sum = self.count as u32 + steps as u32;
        Counter {
            count: (sum % SIZE) as u8,
        }
    }

    // How often so many steps bring it back to 0.
    #[tactic(auto, using(crate::proofs::QuotientLaws::rounds_quotients))]
    fn rounds(self, steps: u16) -> u16
        requires some { 0 < SIZE }
        ensures { result ≡ rounds SIZE steps self.entry.count }
    {
        let sum = self.count as u32 + steps as u32;
        (sum / SIZE - self.count as u32 / SIZE) as u16
    }
}

impl Prescaler {
    // After so many ticks of this source.
    #[tactic(auto, using(crate::proofs::CounterLaws::prescaled_walked, crate::proofs::CounterLaws::prescaled_still))]
    fn ticked_by(self, source: Source, ticks: u16) -> Prescaler
        ensures { result ≡ walked (prescaled source) ticks self }
    {
        match source {
            Source::Xtal => self,
            Source::Rc | Source::Ext => self.stepped_by(ticks),
        }
    }

    // How many of so many ticks of this source are base ticks.
    #[tactic(auto, using(crate::proofs::CounterLaws::base_ticks_rounds, crate::proofs::CounterLaws::base_ticks_all))]
    pub fn base_ticks(self, source: Source, ticks: u16) -> u16
        ensures { result ≡ base_ticks source ticks self }
    {
        match source {
            Source::Xtal => ticks,
            Source::Rc | Source::Ext => self.rounds(ticks),
        }
    }
}

impl Divider {
    // How often the rate's turn comes in so many steps: a rate's period is 2 to the shift.
    #[tactic(auto, using(crate::proofs::CounterLaws::turns_quotients))]
    fn turns(self, rate: u8, steps: u16) -> u16
        ensures { result ≡ turns rate steps self }
    {
        let sum = self.count as u32 + steps as u32;
        let shift = 7u8.saturating_sub(rate);
        ((sum >> shift) - (self.count as u32 >> shift)) as u16
    }
}

impl Watchdog {
    // The flag is set where w comes back to 0 on the way.
    #[tactic(auto, using(crate::proofs::CounterLaws::watchdog_walked))]
    fn stepped_by(self, steps: u16) -> Watchdog
        ensures { result ≡ walked watchdog_stepped steps self }
    {
        let counter = Counter::<WATCHDOG_SIZE> { count: self.count };
        let round = 0 < counter.rounds(steps);
        Watchdog {
            count: counter.stepped_by(steps).count,
            flag: round || self.flag,
        }
    }
}

impl Timer {
    // After so many base ticks while the time base is on.
    #[tactic(auto, using(crate::proofs::CounterLaws::timer_walked))]
    fn stepped_by(self, rate: u8, steps: u16) -> Timer
        ensures { result ≡ walked (timer_stepped rate) steps self }
    {
        let turns = self.divider.turns(rate, steps);
        let rounds = self.base.rounds(turns);
        Timer {
            divider: self.divider.stepped_by(steps),
            base: self.base.stepped_by(turns),
            watchdog: self.watchdog.stepped_by(rounds),
        }
    }

    // What CLR TIMER leaves.
    pub fn cleared(self) -> Timer
        ensures { result ≡ timer_cleared self }
    {
        Timer {
            divider: Divider { count: 0 },
            base: BaseCounter { count: 0 },
            ..self
        }
    }

    // What CLR WDT leaves.
    pub fn watchdog_cleared(self) -> Timer
        ensures { result ≡ watchdog_cleared self }
    {
        let watchdog = Watchdog {
            count: 0,
            flag: false,
        };
        Timer {
            watchdog,
            ..self.cleared()
        }
    }
}

// `on` and `rate` are the fields of settings' `Base`, a crate above, and no struct of this one too: `counters_ticked` takes them apart.
impl Counters {
    // After so many base ticks.
    #[tactic(auto, using(crate::proofs::CounterLaws::base_walked))]
    fn base_ticked_by(self, on: bool, rate: u8, steps: u16) -> Counters
        ensures { result ≡ walked (base_ticked on rate) steps self }
    {
        let toner = self.toner.stepped_by(steps);
        let timer = if on {
            self.timer.stepped_by(rate, steps)
        } else {
            self.timer
        };
        Counters {
            toner,
            timer,
            ..self
        }
    }

    // After so many ticks while the chip is running.
    #[tactic(auto, using(crate::proofs::CounterLaws::counters_walked))]
    pub fn ticked_by(self, source: Source, on: bool, rate: u8, ticks: u16) -> Counters
        ensures { result ≡ walked (counters_ticked source on rate) ticks self }
    {
        let base_ticks = self.prescaler.base_ticks(source, ticks);
        let prescaler = self.prescaler.ticked_by(source, ticks);
        Counters {
            prescaler,
            ..self.base_ticked_by(on, rate, base_ticks)
        }
    }
}

impl Scan {
    // The common that is scanned so many rounds later.
    fn common_after(self, commons: Commons, rounds: u16) -> u8
        ensures { result ≡ walked (next (commons_number commons)) rounds self.common }
    {
        match commons {
            Commons::Two => Counter::<2> { count: self.common }.stepped_by(rounds).count,
            Commons::Three => Counter::<3> { count: self.common }.stepped_by(rounds).count,
            Commons::Four => Counter::<4> { count: self.common }.stepped_by(rounds).count,
        }
    }

    // After so many base ticks, in a part whose scan has this size.
    fn sized_stepped_by<const SIZE: u32>(self, commons: Commons, steps: u16) -> Scan
        requires some { 0 < SIZE }
        requires fits { SIZE ≤ 256 }
        ensures count { result.count ≡ walked (next SIZE) steps self.count }
        ensures common { result.common ≡ walked (next (commons_number commons)) (rounds SIZE steps self.count) self.common }
    {
        let counter = Counter::<SIZE> { count: self.count };
        let rounds = counter.rounds(steps);
        Scan {
            count: counter.stepped_by(steps).count,
            common: self.common_after(commons, rounds),
        }
    }

    // After so many base ticks.
    #[tactic(auto, using(crate::proofs::CounterLaws::scan_walked))]
    pub fn stepped_by(self, part: Part, commons: Commons, steps: u16) -> Scan
        ensures { result ≡ walked (scan_stepped part commons) steps self }
    {
        match part {
            Part::Ht => self.sized_stepped_by::<HT_SCAN_SIZE>(commons, steps),
            Part::Gn => self.sized_stepped_by::<GN_SCAN_SIZE>(commons, steps),
        }
    }
}
