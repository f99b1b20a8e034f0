// The call step on a table: 15, 9, absent time, 10, outside, 11.
ghost use Rattle.std.specs.Prelude.{◌≡◌};
ghost use Rattle.refusal.specs.First.{first_answer};
ghost use Rattle.calls.specs.Tried.{tried};
ghost use Rattle.calls.specs.Calls.{known, call_tests, call_time, timed_of, call_seen, call_fit, ended, call_on};
ghost use Rattle.calls.specs.Uncut.{uncut_view, uncut_on};

use crate::cuts::fit;
use calls::window::{Timed, offset};
use calls::{CALLS, CallInput, Fitted, NO_TRIP, Table, Uncut};
use refusal::{Accepted, Answer, Refusal};
use settings::Settings;

// Whether the load knows what the call names. Trips go up to 65534.
#[tactic(auto, unfolding(calls::specs::Calls::known))]
pub fn is_known(stops: usize, input: CallInput) -> bool
    ensures { result ≡ known stops input }
{
    usize::from(input.stop) < stops
        && input.trip < NO_TRIP
        && input.day <= 2
        && input.pickup <= 3
        && input.drop_off <= 3
}

// What a call needs of its load beside the table, on its own, as a load is built above this. `searched` tells of no other field.
#[derive(Clone, Copy, Debug, PartialEq, Eq)]
pub struct CallGate {
    pub settings: Settings,
    pub searched: bool,
    pub stops: usize,
}

impl CallGate {
    // What a call is answered before the table is looked at; taken where it goes on.
    #[tactic(auto, unfolding(calls::specs::Calls::call_tests, refusal::specs::First::first_answer))]
    fn call_check(self, input: CallInput) -> Answer
        ensures { result ≡ first_answer (call_tests self.searched self.stops input) }
    {
        if self.searched {
            return Err(Refusal::AlreadySearched);
        }
        if !is_known(self.stops, input) {
            return Err(Refusal::FieldRange);
        }
        let (Some(arrival), Some(departure)) = (input.arrival, input.departure) else {
            return Ok(Accepted::Outside);
        };
        if departure < arrival {
            return Err(Refusal::TimesReversed);
        }
        Ok(Accepted::Taken)
    }

    // A time of the call, from the start; 0 stands for one that is absent, which `call_check` sends outside before.
    fn time_of(self, input: CallInput, time: Option<u32>) -> Option<u64>
        ensures { result ≡ call_time self.settings input time }
    {
        let settings = self.settings;
        let day = usize::from(input.day);
        let epoch = settings.epochs.get(day).copied().unwrap_or(0);
        offset(epoch, settings.now, time.unwrap_or(0))
    }

    fn timed(self, input: CallInput) -> Timed
        ensures { result ≡ timed_of self.settings input }
    {
        Timed {
            input,
            arrival: self.time_of(input, input.arrival),
            departure: self.time_of(input, input.departure),
        }
    }

    #[tactic(auto, unfolding(calls::specs::Calls::call_fit))]
    fn call_fit(self, table: Table, input: CallInput) -> Result<Fitted, Refusal>
        ensures { tried table result ≡ ended table (call_fit self.settings table input) }
    {
        fit(table, self.timed(input))
    }

    // A call that no test sends back, at the table's horizon.
    fn uncut_view(self, count: usize, h: u16, input: CallInput) -> Uncut
        ensures { result ≡ uncut_view count (call_seen self.settings h input) }
    {
        match self.timed(input).view(h) {
            None => Uncut::Outside,
            Some(call) if count < CALLS => Uncut::In(call),
            Some(_) => Uncut::Other,
        }
    }

    // A call step that cuts nothing, told without the table: of that only the count and the horizon are read.
    #[tactic(auto, unfolding(calls::specs::Uncut::uncut_on))]
    pub fn uncut(self, count: usize, h: u16, input: CallInput) -> Uncut
        ensures { result ≡ uncut_on self.settings self.searched self.stops count h input }
    {
        match self.call_check(input) {
            Ok(Accepted::Taken) => self.uncut_view(count, h, input),
            Ok(Accepted::Outside) => Uncut::Outside,
            Err(_) => Uncut::Other,
        }
    }

    // A call is taken, lies outside the window, or is sent back.
    #[tactic(auto, unfolding(calls::specs::Calls::call_on))]
    pub fn call_on(self, table: Table, input: CallInput) -> Result<Fitted, Refusal>
        ensures { tried table result ≡ call_on self.settings self.searched self.stops table input }
    {
        match self.call_check(input)? {
            Accepted::Taken => self.call_fit(table, input),
            Accepted::Outside => Ok(Fitted {
                accepted: Accepted::Outside,
                table,
            }),
        }
    }
}
