// The journeys of a display, for C and Rust programs: a load file read, searched and asked over plain numbers.
#![tactic(auto)]

ghost use Rattle.std.specs.Prelude.{◌≡◌, length, unwrap_or};
ghost use Rattle.refusal.specs.First.{answer_number};
ghost use Rattle.file.specs.File.{read_spec_of};
ghost use Rattle.timetable.specs.List.{list_of, within_of, list_within};
ghost use Rattle.timetable.specs.Queries.{best_in, next_in, query_number};
ghost use Rattle.timetable.specs.Verdicts.{judged_of};
ghost use Rattle.timetable.specs.Displays.{dealt_of, display_row, shown_best, shown_next};
ghost use Rattle.timetable.specs.Append.{appended_of};
ghost use Rattle.timetable.specs.Written.{wrote_of, buffer_of, length_of, wrote_number};

mod append;
pub mod journeys;
pub mod judged;
pub mod list;
mod queries;
pub mod shown;
mod within;
mod wrote;

use crate::append::{answer_at, append_number, put_behind};
use crate::journeys::TimetableJourney;
use crate::judged::{TimetableConnection, TimetableVerdict, judged};
use crate::list::{TimetableList, list_by, number_of};
use crate::shown::{TimetableDisplay, TimetablePart, dealt, display_row, shown_best};
use crate::within::{answer_of, joins_of, search_read};
use crate::wrote::{length_of, write_file, wrote_number};
use best::after;
use reader::{fresh, is_second, read_to};
use refusal::is_refused;

// Of these functions and structs.
const VERSION: u32 = 1;

#[unsafe(no_mangle)]
pub extern "C" fn timetable_version() -> u32
    ensures { result ≡ 1 }
{
    VERSION
}

// A load file of version 1 or 2, which may end with its search.
#[unsafe(no_mangle)]
pub extern "C" fn timetable_read(file: &[u8], list: &mut TimetableList) -> u8
    ensures number { result ≡ answer_number (read_spec_of file.now).answer }
    ensures list_after { list.new ≡ list_of (read_spec_of file.now) }
{
    let mut reader = fresh(is_second(file));
    let answer = read_to(&mut reader, file);
    *list = list_by(answer, 0, &reader.load);
    number_of(answer)
}

// A load file without a search, searched within a limit on joins.
#[unsafe(no_mangle)]
pub extern "C" fn timetable_read_within(file: &[u8], limit: u64, list: &mut TimetableList) -> u8
    ensures number { result ≡ answer_number (within_of (read_spec_of file.now) limit).answer }
    ensures list_after { list.new ≡ list_within (within_of (read_spec_of file.now) limit) }
{
    let mut reader = fresh(is_second(file));
    let read = read_to(&mut reader, file);
    let tested = search_read(read, &mut reader, limit);
    let answer = answer_of(tested);
    *list = list_by(answer, joins_of(tested), &reader.load);
    number_of(answer)
}

// The best journey that leaves at or after the second.
#[unsafe(no_mangle)]
pub extern "C" fn timetable_best(
    list: &TimetableList,
    second: i64,
    journey: &mut TimetableJourney,
) -> u8
    ensures number { result ≡ query_number list.entry.now.state (best_in list.entry.now second) }
    ensures row { journey.new ≡ unwrap_or (best_in list.entry.now second) journey.old }
{
    queries::answer(list.state, queries::best_in(list, second), journey)
}

// The best one after `missed` has been missed: only its leave counts.
#[unsafe(no_mangle)]
pub extern "C" fn timetable_next_after(
    list: &TimetableList,
    second: i64,
    missed: &TimetableJourney,
    journey: &mut TimetableJourney,
) -> u8
    ensures number { result ≡ query_number list.entry.now.state (next_in list.entry.now second missed.now) }
    ensures row { journey.new ≡ unwrap_or (next_in list.entry.now second missed.now) journey.old }
{
    let later = after(second, missed.leave);
    queries::answer(list.state, queries::best_in(list, later), journey)
}

// The verdict on a connection, by a file with its search.
#[unsafe(no_mangle)]
pub extern "C" fn timetable_judge(
    file: &[u8],
    connection: &TimetableConnection,
    verdict: &mut TimetableVerdict,
) -> u8
    ensures number { result ≡ answer_number (read_spec_of file.now).answer }
    ensures verdict_after { verdict.new ≡ judged_of (read_spec_of file.now) connection.now }
{
    let mut reader = fresh(is_second(file));
    let answer = read_to(&mut reader, file);
    *verdict = judged(answer, &reader.load, connection);
    number_of(answer)
}

// The load of a file written as a file of version 2.
#[unsafe(no_mangle)]
pub extern "C" fn timetable_write(file: &[u8], out: &mut [u8], written: &mut usize) -> u8
    ensures number { result ≡ wrote_number (wrote_of (read_spec_of file.now) (length out.old)) }
    ensures out_after { out.new ≡ buffer_of (read_spec_of file.now) out.old }
    ensures length { written.new ≡ length_of (wrote_of (read_spec_of file.now) (length out.old)) }
{
    let mut reader = fresh(is_second(file));
    let answer = read_to(&mut reader, file);
    let wrote = write_file(answer, &reader.load, out);
    *written = length_of(wrote);
    wrote_number(wrote)
}

// One step: the record is put behind the file, which stands in the first bytes of a buffer, unless the file's load refuses it.
#[tactic(auto, unfolding(crate::specs::Append::appended_by))]
#[unsafe(no_mangle)]
pub extern "C" fn timetable_append(buffer: &mut [u8], size: &mut usize, b: &[u8]) -> u8
    ensures number { result ≡ (appended_of buffer.old size.old b.now).number }
    ensures buffer_after { buffer.new ≡ (appended_of buffer.old size.old b.now).buffer }
    ensures size_after { size.new ≡ (appended_of buffer.old size.old b.now).size }
{
    let n = (*size).min(buffer.len());
    let answer = answer_at(buffer, n, b);
    if is_refused(answer) {
        return append_number(answer);
    }
    match put_behind(buffer, n, b) {
        Some(longer) => {
            *size = longer;
            append_number(answer)
        }
        None => 26,
    }
}

// A display of lists, each given for the group of a number.
#[unsafe(no_mangle)]
pub extern "C" fn timetable_deal(
    lists: &[TimetableList],
    numbers: &[u8],
    display: &mut TimetableDisplay,
) -> u8
    ensures number { result ≡ (display_row (dealt_of lists.now numbers.now)).refusal }
    ensures display_after { display.new ≡ display_row (dealt_of lists.now numbers.now) }
{
    *display = display_row(dealt(lists, numbers));
    display.refusal
}

// The best of what a display shows of a list.
#[unsafe(no_mangle)]
pub extern "C" fn timetable_shown_best(
    list: &TimetableList,
    part: &TimetablePart,
    second: i64,
    journey: &mut TimetableJourney,
) -> u8
    ensures number { result ≡ query_number list.entry.now.state (shown_best list.entry.now part.now second) }
    ensures row { journey.new ≡ unwrap_or (shown_best list.entry.now part.now second) journey.old }
{
    queries::answer(list.state, shown_best(list, part, second), journey)
}

// Of what it shows, the best after `missed` has been missed.
#[unsafe(no_mangle)]
pub extern "C" fn timetable_shown_next(
    list: &TimetableList,
    part: &TimetablePart,
    second: i64,
    missed: &TimetableJourney,
    journey: &mut TimetableJourney,
) -> u8
    ensures number { result ≡ query_number list.entry.now.state (shown_next list.entry.now part.now second missed.now) }
    ensures row { journey.new ≡ unwrap_or (shown_next list.entry.now part.now second missed.now) journey.old }
{
    let found = shown_best(list, part, after(second, missed.leave));
    queries::answer(list.state, found, journey)
}
