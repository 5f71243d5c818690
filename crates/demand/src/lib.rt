// The demands, of the calls that C makes, in bytes and numbers: the statements stand in specs/, the theorems in proofs/. Demand 1, what a
// refused message leaves: proofs/Refusing.antt. Demand 2, trails numbered and ordered again: proofs/Trails.antt. Demand 3: proofs/Demand.antt.
// When its condition on the sketch holds: proofs/Sketch.antt. What a sender writes is a message, over what its setup left a genuine one, and its
// opening announces its string: proofs/Sending.antt. What two ends estimate of their difference: proofs/Estimating.antt. And a whole session
// between two ends that are both at hand goes through: proofs/Session.antt. There is no code here: the calls are those of crates `rcds` and
// `session`, whose promises the theorems are about.

#![tactic(auto)]
