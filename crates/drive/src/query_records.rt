// Best and next after of the open load, and searches of it within a limit on joins (request 12).
// Output, load and fields one by one: a struct of them would be made at each arm of `record` and taken apart here.
use crate::printed::found;
use crate::record_fields::{Fields, Malformed};
use load::Load;
use margin::margin_of;
use search::search_within;
use stdio::load_lines::{Figures, refused};
use stdio::out::Out;

// Best at the second; at second 0 with the margin that a stopped load has.
pub fn best(out: &mut Out, load: Load, mut fields: Fields<'_>) -> Result<(), Malformed> {
    let second = fields.i64()?;
    fields.end()?;
    let margin = if second == 0 { margin_of(load) } else { None };
    match (best::best(load, second), margin) {
        (Some(j), Some(m)) => writeln!(out, "journey {} margin {m}", Figures(&j)),
        (journey, _) => found(out, journey),
    }
    Ok(())
}

// Next after the leave, at the second. Of a journey missed only its leave counts.
pub fn next(out: &mut Out, load: Load, mut fields: Fields<'_>) -> Result<(), Malformed> {
    let second = fields.i64()?;
    let mut missed = profile::no_journey();
    missed.leave = fields.u16()?;
    fields.end()?;
    found(out, best::next_after(load, second, missed));
    Ok(())
}

// A search within a limit: how it ended, and how many joins it tested.
pub fn limited(out: &mut Out, load: Load, mut fields: Fields<'_>) -> Result<Load, Malformed> {
    let limit = fields.u64()?;
    fields.end()?;
    let w = search_within(load, limit);
    match w.tested {
        Ok(tested) if tested.finished => writeln!(out, "finished {}", tested.joins),
        Ok(tested) => writeln!(out, "stopped {}", tested.joins),
        Err(r) => refused(out, r),
    }
    Ok(w.load)
}
