// Rules: their faults, and rules told in words.
use crate::fault::{Fault, Faults};
use crate::inputs::rule;
use crate::loads::{searched_if, small, with_rules};
use crate::pairs;
use crate::shown::{held, then};
use crate::step::Step;
use load::StepResult;
use refusal::Refusal;
use rules::Rule;

const FAULTS: [Fault; 5] = [
    Fault::Meets(Refusal::AlreadySearched),
    Fault::Meets(Refusal::FieldRange),
    Fault::Meets(Refusal::RuleType),
    Fault::Meets(Refusal::PairTaken),
    Fault::Meets(Refusal::NoRoom),
];

fn tried(faults: Faults) -> StepResult {
    let load = with_rules(faults.many(Fault::Meets(Refusal::NoRoom), 128));
    let (from, to) = if faults.meet(Refusal::PairTaken) {
        (1, 2)
    } else {
        (2, 1)
    };
    let from = if faults.meet(Refusal::FieldRange) {
        128
    } else {
        from
    };
    let kind = if faults.meet(Refusal::RuleType) { 4 } else { 0 };
    searched_if(faults.meet(Refusal::AlreadySearched), load).rule(rule(from, to, kind, None))
}

fn told(rt: &impl Print, label: &str, rule: Rule) {
    then(rt, Step::Rule, label, small().rule(rule))
}

pub fn run(rt: &impl Print) {
    pairs::each(rt, Step::Rule, &FAULTS, tried);
    told(rt, "from stop 3", rule(3, 1, 0, None));
    told(rt, "to stop 3", rule(1, 3, 0, None));
    told(rt, "to stop 2", rule(0, 2, 0, None));
    told(rt, "of type 2 without seconds", rule(2, 1, 2, None));
    told(rt, "of type 3 without seconds", rule(2, 1, 3, None));
    told(rt, "of type 2 with 0 seconds", rule(2, 1, 2, Some(0)));
    told(rt, "of type 4 with 0 seconds", rule(2, 1, 4, Some(0)));
    held(rt, Step::Rule, with_rules(128).rule_count)
}
