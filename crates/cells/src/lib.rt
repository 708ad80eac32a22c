// The shared cells: the refusals of every call, what a memory is, and the two memories.
#![tactic(auto)]

pub mod memory;
pub mod refusal;
pub mod tags;
pub mod words;
