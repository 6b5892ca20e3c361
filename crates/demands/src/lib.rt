// The demands of RULES as theorems over the chip, the driver and the calls for C: all in specs/ and proofs/. Assumes nothing.
#![tactic(auto)]
