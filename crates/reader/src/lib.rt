// The reader of a load file of version 1 or 2 (RULES 13), whole or in parts: version, records, end.
#![tactic(auto)]

ghost use Rattle.std.specs.Prelude.{◌≡◌};
ghost use Rattle.file.specs.Record.{fresh_reader, took};
ghost use Rattle.file.specs.File.{version_answer, is_second, fed_as, fed_spec, end_answer, read_to_of, read_spec_of};

use fields::layout::kind_of;
use file::framed::Records;
use file::record::take_record;
use file::{ReadResult, Reader, RecordResult, Used};
use refusal::{Accepted, Answer, Refusal, is_refused};

// Before the first record of a file, by whether that is of version 2. No `Default`: a load has none.
pub fn fresh(second: bool) -> Reader
    ensures { result ≡ fresh_reader second }
{
    Reader {
        opened: false,
        second,
        load: load::blank(),
    }
}

// 17, before all else.
#[tactic(auto, unfolding(file::specs::File::version_answer))]
pub fn version(bytes: &[u8]) -> Answer
    ensures { result ≡ version_answer bytes.now }
{
    match kind_of(bytes) {
        1 | 2 => Ok(Accepted::Taken),
        _ => Err(Refusal::FileVersion),
    }
}

// Whether the file is of version 2.
pub fn is_second(bytes: &[u8]) -> bool
    ensures { result ≡ is_second bytes.now }
{
    kind_of(bytes) == 2
}

// The whole records at the start of the bytes, up to the first that is refused, taken in place.
pub fn take_records(reader: &mut Reader, bytes: &[u8]) -> Used
    ensures { fed_as result reader.new ≡ fed_spec reader.old bytes.now }
{
    let mut used = 0;
    for b in (Records { rest: bytes }) {
        let answer = take_record(reader, b);
        if is_refused(answer) {
            return Used { answer, used };
        }
        used += 2 + b.len();
    }
    Used {
        answer: Ok(Accepted::Taken),
        used,
    }
}

// The same by value.
pub fn fed(reader: Reader, bytes: &[u8]) -> ReadResult
    ensures { result ≡ fed_spec reader bytes.now }
{
    let mut next = reader;
    let Used { answer, used } = take_records(&mut next, bytes);
    ReadResult {
        answer,
        used,
        reader: next,
    }
}

// Where the file ends, so many bytes after its last whole record: 18, 19.
#[tactic(auto, unfolding(file::specs::File::end_answer, refusal::specs::First::first_answer))]
pub fn ended(opened: bool, left: usize) -> Answer
    ensures { result ≡ end_answer opened left }
{
    if left != 0 {
        Err(Refusal::RecordLength)
    } else if !opened {
        Err(Refusal::RecordKind)
    } else {
        Ok(Accepted::Taken)
    }
}

// A file that is there whole, read to a reader: what it is answered.
#[tactic(auto, using(crate::proofs::ReadLaws::version_room))]
pub fn read_to(reader: &mut Reader, bytes: &[u8]) -> Answer
    ensures { took result reader.new ≡ read_to_of reader.old bytes.now }
{
    let answer = version(bytes);
    if is_refused(answer) {
        return answer;
    }
    let f = take_records(reader, &bytes[1..]);
    if is_refused(f.answer) {
        return f.answer;
    }
    ended(reader.opened, bytes.len() - 1 - f.used)
}

// The same to a fresh one.
pub fn read(bytes: &[u8]) -> RecordResult
    ensures { result ≡ read_spec_of bytes.now }
{
    let mut reader = fresh(is_second(bytes));
    let answer = read_to(&mut reader, bytes);
    RecordResult { answer, reader }
}
