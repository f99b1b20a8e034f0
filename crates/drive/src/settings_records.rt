// The settings of a step file, those of a load file of version 2, and settings with dates (request 03).
use crate::record_fields::{Fields, Malformed};
use fields::layout::{minutes_at, settings_filled_by};
use fields::records::settings_by;
use load::{Load, StepResult};
use settings::Settings;

fn settings(b: &[u8]) -> Result<Settings, Malformed> {
    if settings_filled_by(true, b) {
        Ok(settings_by(true, b))
    } else {
        Err(Malformed)
    }
}

pub fn opening(b: &[u8]) -> Result<StepResult, Malformed> {
    Ok(Load::open(settings(b)?))
}

// The three dates stand behind the settings.
pub fn dated_opening(b: &[u8]) -> Result<StepResult, Malformed> {
    let (own, dates) = b.split_at_checked(minutes_at(b) + 35).ok_or(Malformed)?;
    let mut fields = Fields::new(dates);
    let dates = [fields.u32()?, fields.u32()?, fields.u32()?];
    fields.end()?;
    Ok(Load::open_dated(settings(own)?, dates))
}
