// A load written into a buffer of so much room: how long the file is, and its hash; or the refusal.
// Output, load and fields one by one: a struct of them would be made at each arm of `record` and taken apart here.
use crate::record_fields::{Fields, Malformed};
use key::key;
use load::Load;
use stdio::load_lines::refused;
use stdio::out::Out;

// More than any file of a load has.
const MOST: usize = 70000;

pub fn write(out: &mut Out, load: Load, mut fields: Fields<'_>) -> Result<(), Malformed> {
    let room = fields.u32()? as usize;
    fields.end()?;
    let mut buf = [0u8; MOST];
    match writer::write(load, &mut buf[..room.min(MOST)]) {
        Ok(size) => {
            let file = &buf[..size.min(MOST)];
            writeln!(out, "written {} {:016x}", file.len(), key(file));
        }
        Err(r) => refused(out, r),
    }
    Ok(())
}
