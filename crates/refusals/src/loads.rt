// Loads that a step is tried on: a small one, with dates and without, and with so many stops, calls, rules or services.
use crate::good;
use crate::inputs::call;
use again::add;
use load::{Load, StepResult};
use settings::Settings;

// The start is 1000; days 0 and 1 start with it, and day 2 at 0.
pub const SETTINGS: Settings = Settings {
    origins: 1,
    targets: 1,
    origin_walks: [0; 4],
    target_walks: [0; 4],
    transfer_seconds: 0,
    max_transfers: 0,
    now: 1000,
    epochs: [1000, 1000, 0],
};

// So many good steps; those that are refused leave the load as it was.
pub fn with<F: Fn(Load, u16) -> StepResult>(load: Load, n: u16, step: F) -> Load
    requires { F.IsAlwaysCallable step }
{
    (0..n).fold(load, |load, i| step(load, i).load)
}

// Stops "A" to "C", and a rule from "B" to "C".
fn begun(opened: Load) -> Load {
    with(with(opened, 3, good::stop), 1, good::rule)
}

pub fn small() -> Load {
    begun(Load::open(SETTINGS).load)
}

// The same with dates.
pub fn on(dates: [u32; 3]) -> Load {
    begun(Load::open_dated(SETTINGS, dates).load)
}

// The same on a Monday and the two days after it, with so many services: "A" runs every day, "B" on none.
pub fn week(services: u16) -> Load {
    with(on([20261116, 20261117, 20261118]), services, good::service)
}

// So many stops; the small load has the first three.
pub fn with_stops(count: u16) -> Load {
    with(small(), count, good::stop)
}

pub fn with_calls(count: u16) -> Load {
    with(small(), count, good::call)
}

// So many rules, and as many stops.
pub fn with_rules(count: u16) -> Load {
    with(with_stops(count), count, good::rule)
}

// So many halves of journeys, none of which equals or beats another.
pub fn rides(halves: u16) -> Load {
    with(small(), halves, good::ride)
}

// Two calls of trip 900 more, at a stop that is no target: the first has sequence 0 and departs at 600.
pub fn with_two(load: Load, sequence: u32, arrival: u32) -> Load {
    let second = call(900, sequence, 1, Some(arrival), Some(700));
    add(good::call(load, 900).load, b"", second).load
}

pub fn searched(load: Load) -> Load {
    search::search(load).load
}

pub fn searched_if(yes: bool, load: Load) -> Load {
    if yes { searched(load) } else { load }
}
