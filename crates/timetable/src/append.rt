// One step over a file: its load so far takes a record, which is then put behind the file.
ghost use Rattle.std.specs.Prelude.{◌≡◌, ◌+◌, ◌≤◌, length, take};
ghost use Rattle.file.specs.Record.{fresh_reader, took};
ghost use Rattle.file.specs.File.{is_second};
ghost use Rattle.timetable.specs.Append.{so_far, step_of, has_room, put_behind, size_behind, buffer_behind, append_number};

use file::Reader;
use file::record::take_record;
use prefix::first;
use reader::{fresh, is_second, read_to, version};
use refusal::{Accepted, Answer, is_refused};

// The version byte alone begins a file, and so isn't refused with 19 as a file without a record.
fn so_far(reader: &mut Reader, file: &[u8]) -> Answer
    requires fresh { reader.old ≡ fresh_reader (is_second file.now) }
    ensures { took result reader.new ≡ so_far file.now }
{
    if file.len() == 1 {
        return version(file);
    }
    read_to(reader, file)
}

// A refused file takes no record.
fn step(file: &[u8], b: &[u8]) -> Answer
    ensures { result ≡ (step_of file.now b.now).answer }
{
    let mut reader = fresh(is_second(file));
    let answer = so_far(&mut reader, file);
    if is_refused(answer) {
        return answer;
    }
    take_record(&mut reader, b)
}

// What is answered to a record, behind the first n bytes.
pub fn answer_at(file: &[u8], n: usize, b: &[u8]) -> Answer
    ensures { result ≡ (step_of (take n file.now) b.now).answer }
{
    step(first(file, n), b)
}

#[tactic(auto, unfolding(crate::specs::Append::append_number))]
pub fn append_number(answer: Answer) -> u8
    ensures { result ≡ append_number answer }
{
    match answer {
        Ok(Accepted::Taken) => 0,
        Ok(Accepted::Outside) => 255,
        Err(refusal) => u8::from(refusal),
    }
}

#[tactic(auto, unfolding(crate::specs::Append::has_room))]
fn has_room(room: usize, n: usize, size: usize) -> bool
    ensures { result ≡ has_room room n size }
{
    size <= 65535 && n <= room && 2 + size <= room - n
}

// The length in two bytes, then the record. Its room is asked for here, and tested in `put_behind`.
fn fill(buffer: &mut [u8], n: usize, b: &[u8])
    requires small { length b.now ≤ 65535 }
    requires room { n + 2 + length b.now ≤ length buffer.old }
    ensures { buffer.new ≡ put_behind buffer.old n b.now }
{
    let size = b.len();
    let at = n + 2;
    buffer[n] = (size / 256) as u8;
    buffer[n + 1] = (size % 256) as u8;
    buffer[at..at + size].copy_from_slice(b);
}

// The record behind the first n bytes, if there is room: how many bytes the file has then.
#[tactic(auto, using(crate::proofs::RoomLaws::room_for_all, crate::proofs::RoomLaws::room_small))]
pub fn put_behind(buffer: &mut [u8], n: usize, b: &[u8]) -> Option<usize>
    ensures size { result ≡ size_behind (has_room (length buffer.old) n (length b.now)) n b.now }
    ensures buffer_after { buffer.new ≡ buffer_behind (has_room (length buffer.old) n (length b.now)) buffer.old n b.now }
{
    if has_room(buffer.len(), n, b.len()) {
        fill(buffer, n, b);
        Some(n + 2 + b.len())
    } else {
        None
    }
}
