// A plan's text measured as it is read, without a table.
#![tactic(auto)]

mod amount;
mod node;
pub mod packed;
pub mod plan;
