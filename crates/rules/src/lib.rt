// What a command does to the settings, and the settings at power-on. All goes by value. Assumes nothing.
#![tactic(auto)]

ghost use Rattle.std.specs.Prelude.{◌≡◌};
ghost use Rattle.rules.specs.Effects.{without_time_base, without_flag, system_off, timer_off, watchdog_off, irq_off, glass_to, effect};
ghost use Rattle.settings.specs.Settings.{power_on};
ghost use Rattle.settings.specs.Settings.{system_to, source_to, lcd_to, display_to, tone_to, pitch_to, irq_to, irq_source_to, time_base_to, rate_to, timer_to, scan_to, test_to};

use clock::{BaseCounter, Counters, Divider, Prescaler, Scan, Source, Timer, Toner, Watchdog};
use commands::{Bias, Command, Commons};
use ground::Part;
use settings::{Base, Irq, IrqSource, Lcd, Pitch, Settings, System, Tone};

// The source once the time base is none. One function of this and the next would be no plainer: the rules have the two apart, and it would
// need a definition of both, and a law for each.
fn without_time_base(source: IrqSource) -> IrqSource
    ensures { result ≡ without_time_base source }
{
    match source {
        IrqSource::Neither => IrqSource::Neither,
        IrqSource::TimeBase => IrqSource::Neither,
        IrqSource::Flag => IrqSource::Flag,
    }
}

// The source once the flag is none.
fn without_flag(source: IrqSource) -> IrqSource
    ensures { result ≡ without_flag source }
{
    match source {
        IrqSource::Neither => IrqSource::Neither,
        IrqSource::TimeBase => IrqSource::TimeBase,
        IrqSource::Flag => IrqSource::Neither,
    }
}

// A function for each thing that commands set, which hands back the settings with it. With the things set in one match a listing takes a
// tenth longer (tried; it misses the speed bar): the compiler keeps one more copy of the settings. Bias and commons stay two arguments, as
// `BiasCom` has them, which the definitions and theorems of commands name with both.
fn system_to(settings: Settings, on: bool) -> Settings
    ensures { result ≡ system_to on settings }
{
    let mut next = settings;
    next.system.on = on;
    next
}

fn source_to(settings: Settings, source: Source) -> Settings
    ensures { result ≡ source_to source settings }
{
    let mut next = settings;
    next.system.source = source;
    next
}

fn lcd_to(settings: Settings, on: bool) -> Settings
    ensures { result ≡ lcd_to on settings }
{
    let mut next = settings;
    next.lcd.on = on;
    next
}

fn display_to(settings: Settings, bias: Bias, commons: Commons) -> Settings
    ensures { result ≡ display_to bias commons settings }
{
    let mut next = settings;
    next.lcd.bias = bias;
    next.lcd.commons = commons;
    next
}

fn tone_to(settings: Settings, on: bool) -> Settings
    ensures { result ≡ tone_to on settings }
{
    let mut next = settings;
    next.tone.on = on;
    next
}

fn pitch_to(settings: Settings, pitch: Pitch) -> Settings
    ensures { result ≡ pitch_to pitch settings }
{
    let mut next = settings;
    next.tone.pitch = pitch;
    next
}

fn irq_to(settings: Settings, on: bool) -> Settings
    ensures { result ≡ irq_to on settings }
{
    let mut next = settings;
    next.irq.on = on;
    next
}

fn irq_source_to(settings: Settings, source: IrqSource) -> Settings
    ensures { result ≡ irq_source_to source settings }
{
    let mut next = settings;
    next.irq.source = source;
    next
}

fn time_base_to(settings: Settings, on: bool) -> Settings
    ensures { result ≡ time_base_to on settings }
{
    let mut next = settings;
    next.base.on = on;
    next
}

fn rate_to(settings: Settings, rate: u8) -> Settings
    ensures { result ≡ rate_to rate settings }
{
    let mut next = settings;
    next.base.rate = rate;
    next
}

fn timer_to(settings: Settings, timer: Timer) -> Settings
    ensures { result ≡ timer_to timer settings }
{
    let mut next = settings;
    next.counters.timer = timer;
    next
}

fn scan_to(settings: Settings, scan: Scan) -> Settings
    ensures { result ≡ scan_to scan settings }
{
    let mut next = settings;
    next.scan = scan;
    next
}

fn test_to(settings: Settings, test: bool) -> Settings
    ensures { result ≡ test_to test settings }
{
    let mut next = settings;
    next.test = test;
    next
}

// SYS DIS: at EXT it does nothing.
fn system_off(settings: Settings) -> Settings
    ensures { result ≡ system_off settings.system.source settings }
{
    match settings.system.source {
        Source::Xtal | Source::Rc => system_to(lcd_to(settings, false), false),
        Source::Ext => settings,
    }
}

// TIMER DIS: the time base is no IRQ source any more.
fn timer_off(settings: Settings) -> Settings
    ensures { result ≡ timer_off settings }
{
    let source = without_time_base(settings.irq.source);
    irq_source_to(settings, source)
}

// WDT DIS: the time base goes off, and the flag is no IRQ source any more.
fn watchdog_off(settings: Settings) -> Settings
    ensures { result ≡ watchdog_off settings }
{
    let source = without_flag(settings.irq.source);
    time_base_to(irq_source_to(settings, source), false)
}

// IRQ DIS: the output goes off, and the time-out flag with it.
fn irq_off(settings: Settings) -> Settings
    ensures { result ≡ irq_off settings }
{
    let mut timer = settings.counters.timer;
    timer.watchdog.flag = false;
    irq_to(timer_to(settings, timer), false)
}

// A command that sets bias and commons: the scan begins anew.
fn glass_to(settings: Settings, bias: Bias, commons: Commons) -> Settings
    ensures { result ≡ glass_to bias commons settings }
{
    let scan = Scan {
        count: 0,
        common: 0,
    };
    display_to(scan_to(settings, scan), bias, commons)
}

// The settings as a command leaves them.
#[tactic(auto, unfolding(crate::specs::Effects::effect))]
pub fn obeyed(settings: Settings, command: Command) -> Settings
    ensures { result ≡ effect command settings }
{
    match command {
        Command::SysDis => system_off(settings),
        Command::SysEn => system_to(settings, true),
        Command::LcdOff => lcd_to(settings, false),
        Command::LcdOn => lcd_to(settings, true),
        Command::TimerDis => timer_off(settings),
        Command::WdtDis => watchdog_off(settings),
        Command::TimerEn => time_base_to(irq_source_to(settings, IrqSource::TimeBase), true),
        Command::WdtEn => time_base_to(irq_source_to(settings, IrqSource::Flag), true),
        Command::ToneOff => tone_to(settings, false),
        Command::ToneOn => tone_to(settings, true),
        Command::ClrTimer => timer_to(settings, settings.counters.timer.cleared()),
        Command::ClrWdt => timer_to(settings, settings.counters.timer.watchdog_cleared()),
        Command::Xtal32k => source_to(settings, Source::Xtal),
        Command::Rc256k => source_to(settings, Source::Rc),
        Command::Ext256k => source_to(settings, Source::Ext),
        Command::BiasCom(bias, commons) => glass_to(settings, bias, commons),
        Command::Tone4k => pitch_to(settings, Pitch::FourK),
        Command::Tone2k => pitch_to(settings, Pitch::TwoK),
        Command::IrqDis => irq_off(settings),
        Command::IrqEn => irq_to(settings, true),
        Command::Rate(rate) => rate_to(settings, rate),
        Command::Test => test_to(settings, true),
        Command::Normal => test_to(settings, false),
    }
}

// The settings of a part at power-on.
pub fn at_power_on(part: Part) -> Settings
    ensures { result ≡ power_on part }
{
    let timer = Timer {
        divider: Divider { count: 0 },
        base: BaseCounter { count: 0 },
        watchdog: Watchdog {
            count: 0,
            flag: false,
        },
    };
    Settings {
        system: System {
            on: false,
            source: Source::Rc,
        },
        lcd: Lcd {
            on: false,
            bias: Bias::Half,
            commons: Commons::Two,
        },
        tone: Tone {
            on: false,
            pitch: Pitch::FourK,
        },
        irq: Irq {
            on: false,
            source: IrqSource::Neither,
        },
        base: Base { on: false, rate: 7 },
        counters: Counters {
            prescaler: Prescaler { count: 0 },
            toner: Toner { count: 0 },
            timer,
        },
        test: false,
        scan: Scan {
            count: 0,
            common: 0,
        },
        part,
    }
}
