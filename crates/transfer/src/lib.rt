// The time that a change from one stop to another takes, and which rides join.
#![tactic(auto)]

pub mod choice;
pub mod copied;
pub mod pair;
pub mod parts;

use rules::Rule;
use stops::STOPS;

// The two stops of a change with their parents, 65535 where there is none, as in the arrays that C lends.
#[derive(Clone, Copy, Debug, PartialEq, Eq)]
pub struct Ends {
    pub from: u16,
    pub from_parent: u16,
    pub to: u16,
    pub to_parent: u16,
}

// What changes are read from: the rules, the parent and the place of each stop, and the settings' change time.
// 65535 is no parent and no place, in place of an option: C lends both arrays so.
#[derive(Clone, Copy, Debug, PartialEq, Eq)]
pub struct Transfers<'a> {
    pub rules: &'a [Rule],
    pub parents: &'a [u16; STOPS],
    pub places: &'a [u16; STOPS],
    pub change: u16,
}
