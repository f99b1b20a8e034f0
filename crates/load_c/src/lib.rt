// A whole load file over lent bytes, for programs in C and Rust to call.
#![tactic(auto)]

pub mod altered;

ghost use Rattle.std.specs.Prelude.{◌≡◌, take};
ghost use Rattle.file.specs.File.{read_spec_of};
ghost use Rattle.lines.specs.Lines.{lines_of};
ghost use Rattle.load_c.specs.Best.{times_of, times_in};

use best::best_of;
use lines::lines_of;
use profile::Journey;
use reader::{fresh, is_second, read_to};
use refusal::is_refused;

// The file read, and its lines printed: how many bytes they are.
#[unsafe(no_mangle)]
pub extern "C" fn load_lines(bytes: &[u8], out: &mut [u8; 4096]) -> usize
    ensures { take result out.new ≡ lines_of (read_spec_of bytes.now).answer (read_spec_of bytes.now).reader.load }
{
    let mut reader = fresh(is_second(bytes));
    let answer = read_to(&mut reader, bytes);
    lines_of(out, answer, &reader.load)
}

// When a journey leaves and arrives, as the one number that C is handed.
#[tactic(auto, unfolding(crate::specs::Best::times_of))]
fn times_of(found: Option<Journey>) -> u64
    ensures { result ≡ times_of found }
{
    match found {
        Some(j) => u64::from(j.leave) * 65536 + u64::from(j.arrival),
        None => 4294967296,
    }
}

// The file read, and best asked at second 0: none of a file that is refused.
#[tactic(auto, unfolding(crate::specs::Best::times_in))]
#[unsafe(no_mangle)]
pub extern "C" fn load_best(bytes: &[u8]) -> u64
    ensures { result ≡ times_in (read_spec_of bytes.now) }
{
    let mut reader = fresh(is_second(bytes));
    let answer = read_to(&mut reader, bytes);
    if is_refused(answer) {
        return times_of(None);
    }
    times_of(best_of(&reader.load, 0))
}
