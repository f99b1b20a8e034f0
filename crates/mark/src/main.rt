// Reads pairs of parts from standard input, each part after its length as a big-endian u32: a load file, and connections of 36 bytes each
// (`verdict_lines/Bytes`). Prints the list of the load as `show` does, then a line for each connection (`verdict_lines/Words`), then a line
// `.`. Of a file that is refused, its refusal alone. A part that is longer than the buffer, or is not there whole, ends the run; so does a
// read that fails, which is told on standard error, as a write that fails is. Nothing is printed of a pair that was not read whole.
#![tactic(auto)]

use file::RecordResult;
use load::Load;
use reader::read;
use stdio::out::Out;
use stdio::{input, told};
use verdict_lines::verdict_lines;

// As long as the longest part.
const MOST: usize = 1048576;

// As long as the longest list.
const LIST: usize = 4096;

// As long as the longest line of a connection.
const LINE: usize = 101;

// A line for each connection, one at a time: all of them could be longer than any buffer.
fn verdicts(out: &mut Out, load: &Load, b: &[u8]) {
    let (connections, _) = b.as_chunks::<36>();
    let mut line = [0; LINE];
    for connection in connections {
        let n = verdict_lines(&mut line, load, connection);
        out.lines(&line[..n]);
    }
}

// What is said of a load file and its connections: the list, or the refusal, and the verdicts.
fn item(out: &mut Out, file: RecordResult, connections: &[u8]) {
    let load = &file.reader.load;
    let mut list = [0; LIST];
    let n = lines::lines(&mut list, file.answer, *load);
    out.lines(&list[..n]);
    if file.answer.is_ok() {
        verdicts(out, load, connections);
    }
    out.end_file();
}

// Nothing is said of a load file whose connections are missing.
fn main(rt: HostRuntime) {
    let mut out = Out::new(rt.stdout(), rt.stderr());
    let mut buf = input::zeros::<MOST>();
    let mut first = None;
    let done = input::each_file(rt.stdin(), &mut buf, |part| match first {
        None => first = Some(read(part)),
        Some(file) => {
            item(&mut out, file, part);
            first = None;
        }
    });
    if done.is_err() {
        told::unread(rt.stderr());
    }
}
