// A load written as a load file of version 2 into a lent buffer (RULES 13.4).
#![tactic(auto)]

mod file;
mod records;

ghost use Rattle.std.specs.Prelude.{◌≡◌, length};
ghost use Rattle.week.specs.Weeks.{is_dated};
ghost use Rattle.load.specs.Load.{stopped};
ghost use Rattle.writer.specs.Wrote.{unwritable, wrote_spec, buffer_after};

use crate::file::put_file;
use calls::LONGEST_HORIZON;
use load::Load;
use refusal::Refusal;

#[tactic(auto, unfolding(crate::specs::Wrote::unwritable))]
fn is_unwritable(load: &Load) -> bool
    ensures { result ≡ unwritable (is_dated load.now.week) (stopped load.now) load.now.table_horizon }
{
    load.week.dates.is_some() || load.limit.is_some() || load.table_horizon < LONGEST_HORIZON
}

// How long the file is, or why nothing was written. The file stands at the start of the buffer; bytes past it stay, and so does a buffer
// that is too short.
pub fn write(load: Load, out: &mut [u8]) -> Result<usize, Refusal>
    ensures value { result ≡ wrote_spec load (length out.old) }
    ensures out_after { out.new ≡ buffer_after load out.old }
{
    if is_unwritable(&load) {
        return Err(Refusal::LoadUnwritable);
    }
    if out.len() < put_file(&mut [], &load) {
        return Err(Refusal::BufferShort);
    }
    Ok(put_file(out, &load))
}
