// Services and exceptions, which a load with dates takes (request 03).
use crate::record_fields::{Fields, Malformed};
use load::{Load, StepResult};
use services::{ExceptionInput, ServiceInput};

// Seven marks from Monday's on as a mask, in which Monday's is digit 0.
fn mask(marks: [u8; 7]) -> Result<u8, Malformed> {
    if marks.iter().any(|mark| *mark > 1) {
        return Err(Malformed);
    }
    Ok(marks.iter().rev().fold(0, |mask, mark| mask << 1 | *mark))
}

// A service: its name, seven marks, start and end.
pub fn service(load: Load, mut fields: Fields<'_>) -> Result<StepResult, Malformed> {
    let name = fields.text()?;
    let input = ServiceInput {
        weekdays: mask(fields.bytes()?)?,
        start: fields.u32()?,
        end: fields.u32()?,
    };
    fields.end()?;
    Ok(load.service(name, input))
}

// An exception: the service's name, a date, the type.
pub fn exception(load: Load, mut fields: Fields<'_>) -> Result<StepResult, Malformed> {
    let name = fields.text()?;
    let input = ExceptionInput {
        date: fields.u32()?,
        kind: fields.u8()?,
    };
    fields.end()?;
    Ok(load.exception(name, input))
}
