// Good steps, each told by a number.
use crate::inputs::{FIRST, LAST, PLAIN, call_at, daily, on_monday, rule as rule_input};
use again::add;
use load::{Load, StepResult};
use services::ServiceInput;
use stops::{NewStop, StopInput};

fn name_of(i: u16) -> [u8; 1] {
    [(65 + i % 128) as u8]
}

// Stop i, with the id 65 + i. Stop 0 is a station, 1 an origin and 2 a target.
pub fn stop(load: Load, i: u16) -> StepResult {
    let input = StopInput {
        location_type: u8::from(i == 0),
        members: match i {
            1 => 0x01,
            2 => 0x10,
            _ => 0,
        },
        ..PLAIN
    };
    load.stop(NewStop {
        id: &name_of(i),
        name: None,
        parent: None,
        input,
    })
}

// A call of trip i, which stays at every horizon.
pub fn call(load: Load, i: u16) -> StepResult {
    add(load, b"", call_at(i, 0, 1, 600))
}

// A rule to stop 2.
pub fn rule(load: Load, i: u16) -> StepResult {
    load.rule(rule_input((1 + i % 128) % 128, 2, 0, None))
}

// Half of a ride from stop 1 to stop 2: the trips are 2000 on, and each leaves and arrives a second later than the one before it.
pub fn ride(load: Load, i: u16) -> StepResult {
    let k = i / 2;
    let later = u32::from(k);
    if i % 2 == 0 {
        add(load, b"", call_at(2000 + k, 0, 1, 10 + later))
    } else {
        add(load, b"", call_at(2000 + k, 1, 2, 1000 + later))
    }
}

// Service i, with the name 65 + i, which runs every day but where i is 1.
pub fn service(load: Load, i: u16) -> StepResult {
    let input = ServiceInput {
        weekdays: if i == 1 { 0 } else { 127 },
        ..daily(FIRST, LAST)
    };
    load.service(&name_of(i), input)
}

// An exception to service 0 on the first day, whatever the number.
pub fn exception(load: Load, _i: u16) -> StepResult {
    load.exception(b"A", on_monday(1))
}

// A call of service 0, of trip i.
pub fn call_of(load: Load, i: u16) -> StepResult {
    add(load, b"A", call_at(i, 0, 1, 600))
}
