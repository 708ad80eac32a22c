// The rulebook: what ring entries, task records and answers are, what each call answers and changes, and what any chain of calls keeps.
#![tactic(auto)]

pub mod answer;
pub mod ring;
pub mod table;
pub mod verdict;
