// Where each of the settings' bytes stands in a record.
use crate::{COUNTERS_AT, SETTINGS_AT};

pub const SYSTEM: usize = SETTINGS_AT;

pub const SOURCE: usize = SETTINGS_AT + 1;

pub const LCD: usize = SETTINGS_AT + 2;

pub const BIAS: usize = SETTINGS_AT + 3;

pub const COMMONS: usize = SETTINGS_AT + 4;

pub const TONE: usize = SETTINGS_AT + 5;

pub const PITCH: usize = SETTINGS_AT + 6;

pub const IRQ: usize = SETTINGS_AT + 7;

pub const RATE: usize = SETTINGS_AT + 8;

pub const TIME_BASE: usize = SETTINGS_AT + 9;

pub const IRQ_SOURCE: usize = SETTINGS_AT + 10;

pub const FLAG: usize = COUNTERS_AT;

pub const P: usize = COUNTERS_AT + 1;

pub const Q: usize = COUNTERS_AT + 2;

pub const D: usize = COUNTERS_AT + 3;

pub const B: usize = COUNTERS_AT + 4;

pub const W: usize = COUNTERS_AT + 5;

pub const TEST: usize = COUNTERS_AT + 6;

pub const PART: usize = COUNTERS_AT + 7;

pub const SCAN: usize = COUNTERS_AT + 8;

pub const COMMON: usize = COUNTERS_AT + 9;

// Bytes that are not used, to the end of the record.
pub const SPARE_1: usize = COUNTERS_AT + 10;

pub const SPARE_2: usize = COUNTERS_AT + 11;

pub const SPARE_3: usize = COUNTERS_AT + 12;
