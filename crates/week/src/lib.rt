// The dated part of a load: the dates of its three days, its services, and whether more of them may come.
#![tactic(auto)]

mod answer;
pub mod step;

ghost use Rattle.std.specs.Prelude.{◌≡◌};
ghost use Rattle.week.specs.Weeks.{undated_week, dated_week, closed_week};

use crate::answer::blank_service;
use services::Service;

// How many services a load holds.
pub const SERVICES: usize = 64;

// A load opened without dates has none, and its services are closed from the start. `closed` tells of no other field. The services are an
// array with a count, since the core has no heap: a slot past the count holds the blank service.
#[derive(Clone, Copy, Debug, PartialEq, Eq)]
pub struct Week {
    pub dates: Option<[u32; 3]>,
    pub services: [Service; SERVICES],
    pub service_count: usize,
    pub closed: bool,
}

// Of the service that a call names, on the call's day: three ends, so no `Option`.
#[derive(Clone, Copy, Debug, PartialEq, Eq)]
pub enum Running {
    Unknown,
    Rests,
    Runs,
}

// The week of a load without dates. No `Default`, which would be derived: its services are closed.
#[tactic(auto, unfolding(crate::specs::Weeks::undated_week))]
pub fn undated() -> Week
    ensures { result ≡ undated_week }
{
    let service = blank_service();
    let services = [service; SERVICES];
    Week {
        dates: None,
        services,
        service_count: 0,
        closed: true,
    }
}

// The week of a load with these dates, before the first service.
#[tactic(auto, unfolding(crate::specs::Weeks::dated_week))]
pub fn dated(dates: [u32; 3]) -> Week
    ensures { result ≡ dated_week dates }
{
    let service = blank_service();
    let services = [service; SERVICES];
    Week {
        dates: Some(dates),
        services,
        service_count: 0,
        closed: false,
    }
}

// The week after an answered call: no service or exception comes any more.
pub fn closed(week: Week) -> Week
    ensures { result ≡ closed_week week }
{
    let mut next = week;
    next.closed = true;
    next
}
