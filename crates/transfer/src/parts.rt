// The parts of a change: nearness, what a rule gives, and the change as a number.
ghost use Rattle.std.specs.Prelude.{◌≡◌, ◌≤◌};
ghost use Rattle.transfer.specs.Changes.{near, rule_change, change_of, change_number};

use crate::Ends;
use rules::Rule;
use stops::NO_STOP;

impl Ends {
    // Whether two stops are one, of one parent or of one place. 65535 is none, as in the arrays that C lends.
    pub fn are_near(self, from_place: u16, to_place: u16) -> bool
        ensures { result ≡ near self from_place to_place }
    {
        self.from == self.to
            || (self.from_parent != NO_STOP && self.from_parent == self.to_parent)
            || (from_place != NO_STOP && from_place == to_place)
    }
}

// The change that a rule gives. Seconds count for type 2 alone.
pub fn rule_change(rule: Rule, change: u16) -> Option<u16>
    ensures { result ≡ rule_change rule change }
{
    match rule.transfer_type {
        3 => None,
        2 => Some(rule.seconds.unwrap_or(0).max(change)),
        _ => Some(change),
    }
}

// By the rule, or by nearness where there is none.
pub fn change_by(rule: Option<Rule>, near: bool, change: u16) -> Option<u16>
    ensures { result ≡ change_of rule near change }
{
    rule.map_or(near.then_some(change), |by| rule_change(by, change))
}

// The seconds of a change, 65536 for one that is never made. A number in place of the option: C is handed rows of them. The bound is a
// clause of its own: a caller knows it without the definition.
pub fn change_number(change: Option<u16>) -> u32
    ensures value { result ≡ change_number change }
    ensures small { result ≤ 65536 }
{
    change.map_or(65536, u32::from)
}
