// The rules of a load: transfers between two stops, and which of them are sent back.
#![tactic(auto)]

ghost use Rattle.std.specs.Prelude.{◌≡◌, length};
ghost use Rattle.refusal.specs.First.{first_answer};
ghost use Rattle.laws.specs.Lists.{anyb};
ghost use Rattle.rules.specs.Rules.{blank_rule, same_pair, type_right_of, rule_tests};

use refusal::{Accepted, Answer, Refusal};

// How many rules a load holds.
pub const RULES: usize = 128;

// A rule is held as it is handed in. `transfer_type` is a number and no enum: any may be handed in, and one above 3 is sent back.
#[derive(Clone, Copy, Debug, Default, PartialEq, Eq)]
pub struct Rule {
    pub from: u16,
    pub to: u16,
    pub transfer_type: u8,
    pub seconds: Option<u16>,
}

// What an unused slot holds: the default, by a name that contracts can give it.
pub fn blank_rule() -> Rule
    ensures { result ≡ blank_rule }
{
    Rule::default()
}

// Whether a rule is for the pair.
pub fn same_pair(rule: Rule, from: u16, to: u16) -> bool
    ensures { result ≡ same_pair from to rule }
{
    rule.from == from && rule.to == to
}

// Whether one of the rules is for the pair.
fn rule_known(rules: &[Rule], from: u16, to: u16) -> bool
    ensures { result ≡ anyb (same_pair from to) rules.now }
{
    rules.iter().any(|&rule| same_pair(rule, from, to))
}

// `kind` is the number handed in.
fn type_right(kind: u8, seconds: Option<u16>) -> bool
    ensures { result ≡ type_right_of kind seconds }
{
    kind <= 3 && (kind != 2 || seconds.is_some())
}

// What a rule is answered, by the rules taken: 15, 9, 12, 13, 11.
#[tactic(auto, unfolding(crate::specs::Rules::rule_tests, refusal::specs::First::first_answer))]
pub fn rule_answer(searched: bool, stops: usize, rules: &[Rule], input: Rule) -> Answer
    ensures { result ≡ first_answer (rule_tests searched stops rules.now (length rules.now) input) }
{
    if searched {
        return Err(Refusal::AlreadySearched);
    }
    if stops <= usize::from(input.from) || stops <= usize::from(input.to) {
        return Err(Refusal::FieldRange);
    }
    if !type_right(input.transfer_type, input.seconds) {
        return Err(Refusal::RuleType);
    }
    if rule_known(rules, input.from, input.to) {
        return Err(Refusal::PairTaken);
    }
    if RULES <= rules.len() {
        return Err(Refusal::NoRoom);
    }
    Ok(Accepted::Taken)
}
