// A load file read from standard input in parts, as long as the buffer: what a part leaves of a record that is not whole yet is put before
// the next.
#![tactic(auto)]

ghost use Rattle.std.specs.Prelude.{◌≡◌, ◌++◌, ◌-◌, ◌<◌, ◌≤◌, IfOk, IfSome, drop, length, take};
ghost use Rattle.std.specs.Io.KnownBytes.{IsAtEnd};
ghost use Rattle.file.specs.Record.{took};
ghost use Rattle.parts.specs.Input.{input_of, records_of};

use file::Reader;
use reader::{ended, is_second, take_records, version};
use refusal::{Answer, is_refused};
use std::io::{Read, Stderr, Stdin, Stdout};
use stdio::input::{Unread, full};
use stdio::told;

// The bytes from `from` up to `end` are moved to the start; how many they are. The bound is told, since `records` takes that part.
fn move_down(buf: &mut [u8], from: usize, end: usize) -> usize
    requires start { from ≤ end }
    requires end { end ≤ length buf.old }
    ensures upper_bound { result ≤ length buf.new }
    ensures same { length buf.new ≡ length buf.old }
    ensures moved { take result buf.new ≡ drop from (take end buf.old) }
{
    buf[..end].rotate_left(from);
    end - from
}

// The records of the parts that follow the first bytes of the buffer; the records begin after a version that was taken. The file's end
// or a refusal ends the loop; its range bounds it, as each loop needs a bound. A file that doesn't end in 2^64 parts counts as unread.
// Where the bytes of the input are known, the records are read as those of a file that is there whole.
fn records<R: Read>(
    input: &mut R,
    buf: &mut [u8],
    first: usize,
    reader: &mut Reader,
) -> Result<Answer, Unread>
    requires within { first ≤ length buf.old }
    requires end { first < length buf.old → IsAtEnd (R.remaining input.old) }
    ensures { IfOk result (λ a. IfSome (R.remaining input.old) (λ xs.
        took a reader.new ≡ records_of reader.old (drop 1 (take first buf.old) ++ xs))) }
{
    let mut held = first;
    let mut at = held.min(1);
    for _ in 0..u64::MAX {
        let f = take_records(reader, &buf[at..held]);
        if is_refused(f.answer) {
            return Ok(f.answer);
        }
        let from = at + f.used.min(held - at);
        if held < buf.len() {
            return Ok(ended(reader.opened, held - from));
        }
        let left = move_down(buf, from, held);
        held = left + full(input, &mut buf[left..])?;
        at = 0;
    }
    Err(Unread)
}

// The version, then the records.
fn file<R: Read>(input: &mut R, buf: &mut [u8], reader: &mut Reader) -> Result<Answer, Unread>
    requires { 0 < length buf.old }
    ensures { IfOk result (λ a. IfSome (R.remaining input.old) (λ xs. took a reader.new ≡ input_of reader.old xs)) }
{
    let held = full(input, buf)?;
    let answer = version(&buf[..held]);
    if is_refused(answer) {
        return Ok(answer);
    }
    reader.second = is_second(&buf[..held]);
    records(input, buf, held, reader)
}

// The file, in parts. A read that fails is told on standard error.
fn read_from<R: Read>(input: &mut R, stderr: Stderr, reader: &mut Reader) -> Option<Answer>
    ensures { IfSome result (λ a. IfSome (R.remaining input.old) (λ xs. took a reader.new ≡ input_of reader.old xs)) }
{
    let mut buf = [0; 131072];
    let answer = file(input, &mut buf, reader);
    if answer.is_err() {
        told::unread(stderr);
    }
    answer.ok()
}

// Reads standard input to its end, to a fresh reader: what the last record was answered. A read that fails is told on standard error. The
// reader is lent, and not returned: a copy of it would stand in each frame. No clause names the bytes of standard input, which are not
// known.
pub fn read_input(stdin: Stdin, stderr: Stderr, reader: &mut Reader) -> Option<Answer> {
    read_from(&mut &stdin, stderr, reader)
}

// Writes to standard output; if that fails, says so on standard error.
pub fn print(stdout: Stdout, stderr: Stderr, bytes: &[u8]) {
    if stdout.write_all(bytes).is_err() {
        told::unwritten(stderr);
    }
}
