// The fields of a load file's records: their kinds, numbers, where each field stands, and what a record hands in.
#![tactic(auto)]

pub mod kind;
pub mod layout;
mod numbers;
pub mod records;
