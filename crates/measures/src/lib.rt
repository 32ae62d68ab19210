// The measures of a filled plan in the node table: length, first and latest, reads, magnitude.
#![tactic(auto)]

pub mod first;
pub mod lent;
pub mod limit;
pub mod magnitude;
pub mod node;
pub mod plan;
pub mod quick;
pub mod reads;
pub mod rows;
