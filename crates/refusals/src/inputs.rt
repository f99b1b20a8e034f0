// The calls, rules and stops that steps are tried with. Their numbers stand one by one, as main.rt says.
ghost use Rattle.std.specs.Prelude.{◌≡◌, Some};
ghost use Rattle.refusals.specs.Inputs.{call_with, rule_with};

use crate::fault::{Fault, Faults};
use calls::CallInput;
use refusal::Refusal;
use rules::Rule;
use services::{ExceptionInput, ServiceInput};
use stops::StopInput;

// A call of day 0.
pub fn call(
    trip: u16,
    sequence: u32,
    stop: u16,
    arrival: Option<u32>,
    departure: Option<u32>,
) -> CallInput
    ensures { result ≡ call_with trip sequence stop arrival departure }
{
    CallInput {
        trip,
        day: 0,
        sequence,
        stop,
        arrival,
        departure,
        pickup: 0,
        drop_off: 0,
    }
}

// One that leaves as it arrives.
pub fn call_at(trip: u16, sequence: u32, stop: u16, time: u32) -> CallInput
    ensures { result ≡ call_with trip sequence stop (Some time) (Some time) }
{
    call(trip, sequence, stop, Some(time), Some(time))
}

// A call of trip 900, at this time if it is inside the window.
pub fn faulty_call(faults: Faults, sequence: u32, stop: u16, time: u16) -> CallInput {
    let trip = if faults.meet(Refusal::FieldRange) {
        65535
    } else {
        900
    };
    let time = if faults.have(Fault::Outside) {
        30000
    } else {
        u32::from(time)
    };
    let arrival = if faults.meet(Refusal::TimesReversed) {
        time + 1
    } else {
        time
    };
    let departure = if faults.have(Fault::Absent) {
        None
    } else {
        Some(time)
    };
    call(trip, sequence, stop, Some(arrival), departure)
}

// The id or the name of a step: empty, one that is taken, or a new one.
pub fn name_of(faults: Faults, taken: &'static [u8]) -> &'static [u8] {
    if faults.meet(Refusal::IdLength) {
        b""
    } else if faults.meet(Refusal::IdTaken) {
        taken
    } else {
        b"new"
    }
}

// The service that a call names: "A" runs every day, "B" on none.
pub fn service_of(faults: Faults) -> &'static [u8] {
    if faults.meet(Refusal::ServiceUnknown) {
        b"unknown"
    } else if faults.have(Fault::Rests) {
        b"B"
    } else {
        b"A"
    }
}

// The kind is a byte, as any may be handed in, also one that no rule has.
pub fn rule(from: u16, to: u16, kind: u8, seconds: Option<u16>) -> Rule
    ensures { result ≡ rule_with from to kind seconds }
{
    Rule {
        from,
        to,
        transfer_type: kind,
        seconds,
    }
}

// What a stop has beside its texts: no position, of no origin or target.
pub const PLAIN: StopInput = StopInput {
    location_type: 0,
    degrees: None,
    members: 0,
};

// The first date and the last.
pub const FIRST: u32 = 10101;

pub const LAST: u32 = 99991231;

pub const MONDAY: u32 = 20261116;

// A service that runs from this date to that one.
pub fn daily(start: u32, end: u32) -> ServiceInput {
    ServiceInput {
        weekdays: 127,
        start,
        end,
    }
}

// An exception on the first day. The type is a byte, as any may be handed in, also one that no exception has.
pub fn on_monday(kind: u8) -> ExceptionInput {
    ExceptionInput { date: MONDAY, kind }
}
