// The two ends and demand 3 as definitions, in specs/, and what is proved of them, in proofs/. There is no code here: crate `reply` is
// proved equal to the sender's definitions, crates `receiver` and `taking` to the receiver's.

#![tactic(auto)]
