// The lines of a schedule text, read as commands, and the lines of its report, printed.
#![tactic(auto)]

pub mod command;
mod line;
pub mod reader;
pub mod report;
#[cfg(test)]
mod tests;
