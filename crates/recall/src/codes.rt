// Coded bytes of the settings, each read to the case that it stands for. A match each, and no trait over a table of cases: the pack has
// it that a coded byte reads to its enum without arrays. Options, and no TryFrom: what no case means is for the reader of the record
// to say.
ghost use Rattle.std.specs.Prelude.{◌≡◌};
ghost use Rattle.settings.specs.Selections.{source_read, bias_read, commons_read, pitch_read, irq_source_read};

use clock::Source;
use commands::{Bias, Commons};
use settings::{IrqSource, Pitch};

// Byte 41.
#[tactic(auto, unfolding(settings::specs::Selections::source_read))]
pub(crate) fn source_of(code: u8) -> Option<Source>
    ensures { result ≡ source_read code }
{
    match code {
        0 => Some(Source::Xtal),
        1 => Some(Source::Rc),
        2 => Some(Source::Ext),
        _ => None,
    }
}

// Byte 43.
#[tactic(auto, unfolding(settings::specs::Selections::bias_read))]
pub(crate) fn bias_of(code: u8) -> Option<Bias>
    ensures { result ≡ bias_read code }
{
    match code {
        2 => Some(Bias::Half),
        3 => Some(Bias::Third),
        _ => None,
    }
}

// Byte 44.
#[tactic(auto, unfolding(settings::specs::Selections::commons_read))]
pub(crate) fn commons_of(code: u8) -> Option<Commons>
    ensures { result ≡ commons_read code }
{
    match code {
        2 => Some(Commons::Two),
        3 => Some(Commons::Three),
        4 => Some(Commons::Four),
        _ => None,
    }
}

// Byte 46.
#[tactic(auto, unfolding(settings::specs::Selections::pitch_read))]
pub(crate) fn pitch_of(code: u8) -> Option<Pitch>
    ensures { result ≡ pitch_read code }
{
    match code {
        4 => Some(Pitch::FourK),
        2 => Some(Pitch::TwoK),
        _ => None,
    }
}

// Byte 50.
#[tactic(auto, unfolding(settings::specs::Selections::irq_source_read))]
pub(crate) fn irq_source_of(code: u8) -> Option<IrqSource>
    ensures { result ≡ irq_source_read code }
{
    match code {
        0 => Some(IrqSource::Neither),
        1 => Some(IrqSource::TimeBase),
        2 => Some(IrqSource::Flag),
        _ => None,
    }
}
