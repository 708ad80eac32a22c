// The filters: what a filter is, and the three kinds.
#![tactic(auto)]

pub mod entries;
pub mod filter;
pub mod large;
pub mod short_list;
pub mod small;
