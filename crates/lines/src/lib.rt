// The lines that are printed of a load, as bytes in a lent buffer: those of RULES 13.3, or each journey with its rides.
#![tactic(auto)]

ghost use Rattle.std.specs.Prelude.{◌≡◌, take};
ghost use Rattle.buffer.specs.Put.{Put};
ghost use Rattle.lines.specs.Lines.{Counts, lines_of};
ghost use Rattle.lines.specs.Rides.{ride_lines_of, load_for, lines_for, lines_most};

use crate::journeys::journey_lines;
use crate::text::{horizon_line, refused_line, searched_line};
use buffer::Buffer;
use load::Load;
use prefix::first;
use refusal::Answer;

pub mod digits;
mod journeys;
mod text;

// `rides` says whether the rides are put too. A trait for what is put would need two types, and say no more.
fn load_lines(out: &mut Buffer<'_>, rides: bool, load: &Load)
    ensures { Put (lines_most rides) (load_for rides load.now) out.old out.new }
{
    journey_lines(out, rides, first(&load.journeys, load.journey_count));
    horizon_line(out, load.horizon, load.limits);
    if rides {
        searched_line(out, load.searched);
    }
}

fn answer_lines(out: &mut Buffer<'_>, rides: bool, answer: Answer, load: &Load)
    ensures { Put (lines_most rides) (lines_for rides answer load.now) out.old out.new }
{
    match answer {
        Ok(_) => load_lines(out, rides, load),
        Err(r) => refused_line(out, u8::from(r)),
    }
}

// Puts the lines at the start of the buffer, and answers how many bytes they are: a length, as C reads it, which lends the buffer. One
// function over any size, for this and `ride_lines_of`, would be as long as the two.
pub fn lines_of(out: &mut [u8; 4096], answer: Answer, load: &Load) -> usize
    ensures out_after { take result out.new ≡ lines_of answer load.now }
    ensures counts { Counts result out.new }
{
    let mut text = Buffer::new(out);
    answer_lines(&mut text, false, answer, load);
    text.len
}

// The same of a load by value.
pub fn lines(out: &mut [u8; 4096], answer: Answer, load: Load) -> usize
    ensures out_after { take result out.new ≡ lines_of answer load }
    ensures counts { Counts result out.new }
{
    lines_of(out, answer, &load)
}

// The same with the rides of each journey, and whether the load was searched.
pub fn ride_lines_of(out: &mut [u8; 16384], answer: Answer, load: &Load) -> usize
    ensures out_after { take result out.new ≡ ride_lines_of answer load.now }
    ensures counts { Counts result out.new }
{
    let mut text = Buffer::new(out);
    answer_lines(&mut text, true, answer, load);
    text.len
}
