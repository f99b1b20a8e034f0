// The steps that are tried, by the names that lines give them.
use crate::good;
use load::{Load, StepResult};
use std::fmt;

#[derive(Clone, Copy, Debug, PartialEq, Eq)]
pub enum Step {
    Open,
    Stop,
    Call,
    Rule,
    Search,
    // Within a limit on joins.
    Limited,
    Service,
    Exception,
    CallOf,
    // A call on a searched load, of no service and of one.
    Added,
    AddedOf,
    // From an unsearched load, and from a searched one.
    Withdrawal,
    Withdrawn,
}

impl fmt::Display for Step {
    fn fmt<W: fmt::Write>(&self, f: &mut fmt::Formatter<W>) -> fmt::Result {
        f.write_str(match self {
            Step::Open => "open",
            Step::Stop => "stop",
            Step::Call => "call",
            Step::Rule => "rule",
            Step::Search => "search",
            Step::Limited => "limited search",
            Step::Service => "service",
            Step::Exception => "exception",
            Step::CallOf => "call of a service",
            Step::Added => "call after the search",
            Step::AddedOf => "call of a service after the search",
            Step::Withdrawal => "withdrawal",
            Step::Withdrawn => "withdrawal after the search",
        })
    }
}

impl Step {
    // A good step after this one: a call after a rule, a withdrawal and a call after the search, a service after an exception and after a
    // call that names one, an exception after a service, else a rule. A match, as no function may be handed out of a table.
    pub fn then(self, load: Load) -> StepResult {
        match self {
            Step::Rule | Step::Added | Step::Withdrawal | Step::Withdrawn => good::call(load, 127),
            Step::Service => good::exception(load, 127),
            Step::Exception | Step::CallOf => good::service(load, 127),
            Step::AddedOf => good::call_of(load, 127),
            Step::Open | Step::Stop | Step::Call | Step::Search | Step::Limited => {
                good::rule(load, 127)
            }
        }
    }
}
