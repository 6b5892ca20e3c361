// Series of write streams, and the best one that makes a picture of another: all in specs/ and proofs/. Assumes nothing.
#![tactic(auto)]
