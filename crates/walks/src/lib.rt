// Walks on the ring: the place that a transaction begins at, the check, and the place that a writer waits for.
#![tactic(auto)]

mod asking;
pub mod check;
pub mod ring;
