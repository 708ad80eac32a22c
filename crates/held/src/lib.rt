// Held transactions: the calls of a task, with the transaction as a value that the checker follows.
// The engine's own calls, which take the task's number, are the numbered calls: each held call does what the numbered one does.
#![tactic(auto)]

pub mod answer;
pub mod transaction;
