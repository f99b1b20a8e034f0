// The call step of a load: by the week of a dated load, the short way where nothing is cut, and by the table.
ghost use Rattle.std.specs.Prelude.{◌≡◌, []};
ghost use Rattle.week.specs.Weeks.{running};
ghost use Rattle.load.specs.Steps.{stepped, plain_call, gate_answer, dated_call, call_spec};

use crate::{Load, StepResult};
use calls::{CallInput, Table, Uncut};
use refusal::{Accepted, Answer, Refusal, is_refused, is_taken};
use table::step::{CallGate, is_known};
use week::{Running, closed};

impl Load {
    // A call that names its service. On a load without dates the name is unread.
    pub fn call_of(self, service: &[u8], input: CallInput) -> StepResult
        ensures { result ≡ call_spec self service.now input }
    {
        let mut next = self;
        let answer = next.take_call_of(service, input);
        StepResult { answer, load: next }
    }

    // The same in place. Never compiled into the step by value, which is straight copies then: of these the compiler drops all but two.
    #[inline(never)]
    pub fn take_call_of(&mut self, service: &[u8], input: CallInput) -> Answer
        ensures { stepped result self.new ≡ call_spec self.old service.now input }
    {
        if self.week.dates.is_some() {
            return self.take_dated(service, input);
        }
        self.take_call(input)
    }

    // What a call on a dated load is answered by its service: 15, 9, 21, outside on a day when that doesn't run; taken where it goes on.
    // Each case of `told` has its answer here, and calls nothing.
    #[tactic(auto, unfolding(crate::specs::Steps::gate_answer, refusal::specs::First::first_answer))]
    fn gate_answer(&self, told: Running, input: CallInput) -> Answer
        ensures { result ≡ gate_answer self.now.searched self.now.stop_count told input }
    {
        if self.searched {
            return Err(Refusal::AlreadySearched);
        }
        if !is_known(self.stop_count, input) {
            return Err(Refusal::FieldRange);
        }
        match told {
            Running::Unknown => Err(Refusal::ServiceUnknown),
            Running::Rests => Ok(Accepted::Outside),
            Running::Runs => Ok(Accepted::Taken),
        }
    }

    // A call on a dated load. An answered one closes the services.
    fn take_dated(&mut self, service: &[u8], input: CallInput) -> Answer
        ensures { stepped result self.new ≡ dated_call self.old (running self.old.week service.now input.day) input }
    {
        let told = self.week.running(service, input.day);
        let gate = self.gate_answer(told, input);
        if is_refused(gate) {
            return gate;
        }
        let week = closed(self.week);
        if is_taken(gate) {
            let answer = self.take_by_cuts(input);
            if is_refused(answer) {
                return answer;
            }
            self.week = week;
            return answer;
        }
        self.week = week;
        gate
    }

    // A call that names no service: on a dated load no service has the empty name. It is taken, lies outside the window, or is sent back.
    pub fn call(self, input: CallInput) -> StepResult
        ensures { result ≡ call_spec self [] input }
    {
        let mut next = self;
        let answer = next.take_call(input);
        StepResult { answer, load: next }
    }

    // The same in place, never compiled into the step by value either. Where nothing is cut, the table is not copied apart.
    #[inline(never)]
    pub fn take_call(&mut self, input: CallInput) -> Answer
        ensures { stepped result self.new ≡ call_spec self.old [] input }
    {
        if self.week.dates.is_some() {
            return self.take_dated(b"", input);
        }
        let at = self.call_count;
        // Made here and in `take_by_cuts`: a function with its contract would be as long as the two.
        let gate = CallGate {
            settings: self.settings,
            searched: self.searched,
            stops: self.stop_count,
        };
        let told = gate.uncut(at, self.table_horizon, input);
        match told {
            Uncut::In(call) => {
                self.calls[at] = call;
                self.call_count = at + 1;
                self.horizon = self.table_horizon;
                self.limits = self.table_limits;
                Ok(Accepted::Taken)
            }
            Uncut::Outside => {
                self.horizon = self.table_horizon;
                self.limits = self.table_limits;
                Ok(Accepted::Outside)
            }
            Uncut::Other => self.take_by_cuts(input),
        }
    }

    // A call that its service lets pass, through the table: what is sent back, and what a full table does.
    fn take_by_cuts(&mut self, input: CallInput) -> Answer
        ensures { stepped result self.new ≡ plain_call self.old input }
    {
        // The load has these fields one by one, as most steps read one of them alone. An array goes from one record to another by a
        // variable.
        let calls = self.calls;
        let table = Table {
            calls,
            count: self.call_count,
            horizon: self.table_horizon,
            limits: self.table_limits,
        };
        let gate = CallGate {
            settings: self.settings,
            searched: self.searched,
            stops: self.stop_count,
        };
        let fitted = gate.call_on(table, input)?;
        let t = fitted.table;
        let calls = t.calls;
        self.calls = calls;
        self.call_count = t.count;
        self.table_horizon = t.horizon;
        self.table_limits = t.limits;
        self.horizon = t.horizon;
        self.limits = t.limits;
        Ok(fitted.accepted)
    }
}
