// The rules once more, of the 64 bytes that a host in C holds: what each call returns and which bytes it leaves, said in
// bytes and numbers. It has no code: its statements are in specs/, and proofs/ proves them of the calls. A rule that is wrong in
// the model's definition and in its code alike is refused here. Assumes nothing.
#![tactic(auto)]
