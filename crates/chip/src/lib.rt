// The chip: a port, which is the memory with the lines, the frame and DATA, and the settings. Each sample of the four lines
// is taken and answered; each tick moves the settings' counters. All goes by value. Assumes nothing.
#![tactic(auto)]

ghost use Rattle.std.specs.Prelude.{◌≡◌};
ghost use Rattle.chip.specs.Chip.{commanded, stepped_to, stepped, ticked, advanced};

use answers::Answer;
use frames::Upshot;
use ground::Refusal;
use lines::Levels;
use port::Port;
use settings::Settings;

#[derive(Clone, Copy)]
pub struct Chip {
    pub port: Port,
    pub settings: Settings,
}

// A chip after a sample, and what the sample was answered.
#[derive(Clone, Copy)]
pub struct Stepped {
    pub chip: Chip,
    pub answer: Answer,
}

// A code that is complete: an undefined one is passed over, a command obeyed.
#[tactic(auto, unfolding(crate::specs::Chip::obeyed_as, crate::specs::Chip::settings_after))]
fn commanded(port: Port, settings: Settings, code: u8) -> Stepped
    ensures { result ≡ commanded port settings code }
{
    match commands::meaning(settings.part, 2 * (code as u16)) {
        None => Stepped {
            chip: Chip { port, settings },
            answer: Answer::Passed(code),
        },
        Some(command) => Stepped {
            chip: Chip {
                port,
                settings: rules::obeyed(settings, command),
            },
            answer: Answer::Obeyed(code),
        },
    }
}

impl Chip {
    // The chip after a sample of these levels.
    #[tactic(auto, unfolding(crate::specs::Chip::stepped_to, crate::specs::Chip::settings_after))]
    pub fn step_to(self, levels: Levels) -> Stepped
        ensures { result ≡ stepped_to self levels }
    {
        let moved = self.port.moved(levels);
        let chip = Chip {
            port: moved.port,
            ..self
        };
        match moved.upshot {
            Upshot::Answered(answer) => Stepped { chip, answer },
            Upshot::Nibble(at, nibble) => Stepped {
                chip,
                answer: Answer::Stored(at, nibble),
            },
            Upshot::Code(code) => commanded(moved.port, self.settings, code),
        }
    }

    // The chip after a sample. One above 15 is refused and changes nothing.
    #[tactic(auto, unfolding(crate::specs::Chip::stepped))]
    pub fn step(self, sample: u8) -> Stepped
        ensures { result ≡ stepped self sample }
    {
        if 15 < sample {
            return Stepped {
                chip: self,
                answer: Answer::Refused(Refusal::SampleAbove),
            };
        }
        self.step_to(Levels::from(sample))
    }

    // The chip after one tick of the system clock.
    #[inline(always)]
    pub fn tick(self) -> Chip
        ensures { result ≡ ticked self }
    {
        Chip {
            settings: ticks::ticked(self.settings),
            ..self
        }
    }

    // The chip after `ticks` single ticks.
    #[inline(always)]
    pub fn advance(self, ticks: u16) -> Chip
        ensures { result ≡ advanced ticks self }
    {
        Chip {
            settings: ticks::advanced(self.settings, ticks),
            ..self
        }
    }
}
