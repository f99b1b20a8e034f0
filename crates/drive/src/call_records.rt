// Calls, calls that name a service, and withdrawals, which a load takes before its search and after it.
use crate::record_fields::{Fields, Malformed};
use again::{add, withdraw};
use calls::{CallInput, CallKey};
use fields::layout::{call_filled, pickup_at};
use fields::records::call_in;
use load::{Load, StepResult};

fn call_of(b: &[u8]) -> Result<CallInput, Malformed> {
    if call_filled(b) {
        Ok(call_in(b))
    } else {
        Err(Malformed)
    }
}

// One that names no service has the empty name.
pub fn call(load: Load, b: &[u8]) -> Result<StepResult, Malformed> {
    Ok(add(load, b"", call_of(b)?))
}

// The service's name stands behind the call's own fields.
pub fn service_call(load: Load, b: &[u8]) -> Result<StepResult, Malformed> {
    let (own, name) = b.split_at_checked(pickup_at(b) + 2).ok_or(Malformed)?;
    let mut fields = Fields::new(name);
    let name = fields.text()?;
    fields.end()?;
    Ok(add(load, name, call_of(own)?))
}

// A withdrawal: trip, day, sequence.
pub fn withdrawal(load: Load, mut fields: Fields<'_>) -> Result<StepResult, Malformed> {
    let key = CallKey {
        trip: fields.u16()?,
        day: fields.u8()?,
        sequence: fields.u32()?,
    };
    fields.end()?;
    Ok(withdraw(load, key))
}
