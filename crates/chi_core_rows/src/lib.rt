//! Worked rows: what the definitions of the meaning of processes come to on small programs, computed by the
//! toolchain and kept as equations in `proofs`; values that are of a kind or of none, and programs that are sound
//! or not, each by a checked proof.
#![tactic(auto)]
