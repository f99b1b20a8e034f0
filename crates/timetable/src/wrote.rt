// A file's load written as a file.
ghost use Rattle.std.specs.Prelude.{◌≡◌, length};
ghost use Rattle.timetable.specs.Written.{wrote_by, buffer_by, length_of, wrote_number};

use load::Load;
use refusal::{Answer, Refusal};
use writer::write;

// The refusal of the reading comes first.
pub fn write_file(answer: Answer, load: &Load, out: &mut [u8]) -> Result<usize, Refusal>
    ensures value { result ≡ wrote_by answer load.now (length out.old) }
    ensures out_after { out.new ≡ buffer_by answer load.now out.old }
{
    match answer {
        Ok(_) => write(*load, out),
        Err(refusal) => Err(refusal),
    }
}

pub fn length_of(wrote: Result<usize, Refusal>) -> usize
    ensures { result ≡ length_of wrote }
{
    wrote.unwrap_or(0)
}

pub fn wrote_number(wrote: Result<usize, Refusal>) -> u8
    ensures { result ≡ wrote_number wrote }
{
    match wrote {
        Ok(_) => 0,
        Err(refusal) => u8::from(refusal),
    }
}
