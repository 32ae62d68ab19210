// Numbers, settings and fields, read from a byte of a text on.
#![tactic(auto)]

pub mod field;
pub mod numbers;
mod settings;
pub mod slots;
