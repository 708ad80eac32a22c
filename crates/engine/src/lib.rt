// The transaction engine: the engine's record and its calls, over arrays that are handed over at each call.
#![tactic(auto)]

pub mod arrays;
pub mod engine;
mod entries;
mod handed;
mod lists;
mod log;
mod records;
