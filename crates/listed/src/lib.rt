// What the listing of an input is: all in specs/, with the listings that RULES prints computed in proofs/. Assumes nothing.
#![tactic(auto)]

// What a byte of the input is.
#[derive(Clone, Copy)]
pub enum Class {
    Sample(u8),
    Tick,
    Skipped,
    Bad,
}
