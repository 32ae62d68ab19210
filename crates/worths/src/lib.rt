// What a payoff is worth, with refusals 11 and 14 as evaluation meets them.
#![tactic(auto)]

pub mod answers;
pub mod asked;
pub mod coded;
pub mod fours;
pub mod leaf;
pub mod payoffs;
pub mod rows;
pub mod wait;
