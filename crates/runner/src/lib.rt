// The schedule runner: plays the lines of a text over the engine and prints one line for each.
#![tactic(auto)]

pub mod face;
mod input;
mod play;
pub mod run;
mod turn;
