// A sketch opened in any order: the statements stand in specs/, the theorems in proofs/. There is no code here: the theorems are about the
// definitions of crate `sketch`, which `rcds_sketch_open` is proved to equal.

#![tactic(auto)]
