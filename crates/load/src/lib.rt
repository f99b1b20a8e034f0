// The load: settings, stops, calls, rules, services and journeys, by value or lent. It is opened and filled here; crates above search and
// query it, and add and withdraw calls.
#![tactic(auto)]

mod calling;

ghost use Rattle.std.specs.Prelude.{◌≡◌, option_copied};
ghost use Rattle.load.specs.Load.{blank_settings, empty_load, empty_of};
ghost use Rattle.load.specs.Steps.{
  undated,
  dated,
  open_answer,
  open_by,
  open_spec_of,
  stepped,
  unless_refused,
  stop_spec,
  rule_spec,
  service_spec,
  exception_spec,
};

use calls::{CALLS, Call, LONGEST_HORIZON, blank_call};
use prefix::first;
use profile::{Journey, KEPT, no_journey};
use refusal::{Accepted, Answer, Refusal, is_refused, is_taken};
use rules::{RULES, Rule, blank_rule, rule_answer};
use services::{ExceptionInput, ServiceInput, dates_wrong};
use settings::{Settings, canonical, settings_answer};
use stop_answer::{parent_of, stop_answer};
use stops::taken::{blank_stop, stop_of};
use stops::{NewStop, STOPS, Stop};
use week::{Week, dated, undated};

// Counts stand beside arrays, since the core has no heap and the kit's `ArrayVec` is not `Copy`, as a load is: a slot past its count holds
// the blank record. `table_horizon` and `table_limits` are the call table's; `horizon` and `limits` are what a query sees, and differ from
// them only after the search. `searched` stays a flag: horizon and limits are queried before the search too; journeys, their count and
// `limit` are blank till then. `limit` is the limit on joins of a search that was stopped.
#[derive(Clone, Copy, Debug, PartialEq)]
pub struct Load {
    pub settings: Settings,
    pub stops: [Stop; STOPS],
    pub stop_count: usize,
    pub calls: [Call; CALLS],
    pub call_count: usize,
    pub rules: [Rule; RULES],
    pub rule_count: usize,
    pub journeys: [Journey; KEPT],
    pub journey_count: usize,
    pub table_horizon: u16,
    pub table_limits: u8,
    pub horizon: u16,
    pub limits: u8,
    pub searched: bool,
    pub limit: Option<u64>,
    pub week: Week,
}

// What a step answers, and the load that it returns: the load given, where the step is sent back. No `Result`: the load goes on after
// either.
#[derive(Clone, Copy, Debug, PartialEq)]
pub struct StepResult {
    pub answer: Answer,
    pub load: Load,
}

// No `Default`: settings and week are handed in, and the horizon starts at 21600.
fn empty(settings: Settings, week: Week) -> Load
    ensures { result ≡ empty_of settings week }
{
    Load {
        settings,
        stops: [blank_stop(); STOPS],
        stop_count: 0,
        calls: [blank_call(); CALLS],
        call_count: 0,
        rules: [blank_rule(); RULES],
        rule_count: 0,
        journeys: [no_journey(); KEPT],
        journey_count: 0,
        table_horizon: LONGEST_HORIZON,
        table_limits: 0,
        horizon: LONGEST_HORIZON,
        limits: 0,
        searched: false,
        limit: None,
        week,
    }
}

// The empty load of blank settings, which stands where no load was opened. No `impl Default`: contracts name it.
pub fn blank() -> Load
    ensures { result ≡ empty_load blank_settings }
{
    empty(Settings::default(), undated())
}

// Why an opening with dates is sent back: 1, 2, 20.
#[tactic(auto, unfolding(crate::specs::Steps::open_answer, refusal::specs::First::first_answer, settings::specs::Settings::settings_tests))]
fn dated_answer(settings: Settings, dates: [u32; 3]) -> Answer
    ensures { result ≡ open_answer (dated settings dates) }
{
    settings_answer(settings)?;
    if dates_wrong(dates) {
        return Err(Refusal::DateWrong);
    }
    Ok(Accepted::Taken)
}

// An opening by its answer: the empty load, or the one of blank settings where it is sent back.
fn opening(answer: Answer, settings: Settings, week: Week) -> StepResult
    ensures { result ≡ open_by answer settings week }
{
    let load = if is_refused(answer) {
        blank()
    } else {
        empty(canonical(settings), week)
    };
    StepResult { answer, load }
}

// A step by value is the step in place of a copy: three lines alike in each, as a function that took the step as a closure would state its
// promise once more.
impl Load {
    // An empty load, or why the settings are sent back: then the load is the empty one of blank settings.
    pub fn open(settings: Settings) -> StepResult
        ensures { result ≡ open_spec_of (undated settings) }
    {
        opening(settings_answer(settings), settings, undated())
    }

    // The same with the dates of the three days: services may come, and calls name one.
    pub fn open_dated(settings: Settings, dates: [u32; 3]) -> StepResult
        ensures { result ≡ open_spec_of (dated settings dates) }
    {
        opening(dated_answer(settings, dates), settings, dated(dates))
    }

    // An empty load in place of this one, or why the settings are sent back: then it stays.
    pub fn reopen(&mut self, settings: Settings) -> Answer
        ensures { stepped result self.new ≡ unless_refused self.old (open_spec_of (undated settings)) }
    {
        let answer = settings_answer(settings);
        if is_refused(answer) {
            return answer;
        }
        *self = empty(canonical(settings), undated());
        answer
    }

    // A stop is taken or sent back.
    pub fn stop(self, stop: NewStop<'_>) -> StepResult
        ensures { result
            ≡ stop_spec self stop.entry.id.now (option_copied stop.entry.name) (option_copied stop.entry.parent) stop.entry.input }
    {
        let mut next = self;
        let answer = next.take_stop(stop);
        StepResult { answer, load: next }
    }

    // The same in place.
    pub fn take_stop(&mut self, stop: NewStop<'_>) -> Answer
        ensures { stepped result self.new
            ≡ stop_spec self.old stop.entry.id.now (option_copied stop.entry.name) (option_copied stop.entry.parent) stop.entry.input }
    {
        let at = self.stop_count;
        let stops = first(&self.stops, at);
        let station = parent_of(stops, stop.parent);
        let answer = stop_answer(self.searched, stops, station, stop);
        if is_taken(answer) {
            self.stops[at] = stop_of(stop, station);
            self.stop_count = at + 1;
        }
        answer
    }

    // A rule is taken or sent back.
    pub fn rule(self, rule: Rule) -> StepResult
        ensures { result ≡ rule_spec self rule }
    {
        let mut next = self;
        let answer = next.take_rule(rule);
        StepResult { answer, load: next }
    }

    // The same in place.
    pub fn take_rule(&mut self, rule: Rule) -> Answer
        ensures { stepped result self.new ≡ rule_spec self.old rule }
    {
        let at = self.rule_count;
        let rules = first(&self.rules, at);
        let answer = rule_answer(self.searched, self.stop_count, rules, rule);
        if is_taken(answer) {
            self.rules[at] = rule;
            self.rule_count = at + 1;
        }
        answer
    }

    // A service is taken or sent back.
    pub fn service(self, name: &[u8], input: ServiceInput) -> StepResult
        ensures { result ≡ service_spec self name.now input.weekdays input.start input.end }
    {
        let mut next = self;
        let answer = next.take_service(name, input);
        StepResult { answer, load: next }
    }

    // The same in place.
    #[tactic(auto, unfolding(crate::specs::Steps::service_spec))]
    pub fn take_service(&mut self, name: &[u8], input: ServiceInput) -> Answer
        ensures { stepped result self.new ≡ service_spec self.old name.now input.weekdays input.start input.end }
    {
        self.week.take_service(self.searched, name, input)
    }

    // An exception to a service is taken or sent back.
    pub fn exception(self, name: &[u8], input: ExceptionInput) -> StepResult
        ensures { result ≡ exception_spec self name.now input.date input.kind }
    {
        let mut next = self;
        let answer = next.take_exception(name, input);
        StepResult { answer, load: next }
    }

    // The same in place.
    #[tactic(auto, unfolding(crate::specs::Steps::exception_spec))]
    pub fn take_exception(&mut self, name: &[u8], input: ExceptionInput) -> Answer
        ensures { stepped result self.new ≡ exception_spec self.old name.now input.date input.kind }
    {
        self.week.take_exception(self.searched, name, input)
    }
}
