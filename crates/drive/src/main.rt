// Reads step files (docs/STEPS.md) from standard input and prints a line for each record, then the last load. Input that begins
// with byte 83 is one step file; other input is a batch, with a line `.` after each file. A file of a batch that is longer than
// the buffer, or is not there whole, ends the run; one step file that fills the buffer is malformed. A read that fails ends the run too,
// and is told on standard error, as a write that fails is.
#![tactic(auto)]

mod call_records;
mod display_records;
mod kind;
mod printed;
mod query_records;
mod record_fields;
mod run;
mod settings_records;
mod week_records;
mod write_record;

use record_fields::Malformed;
use std::io::Stdin;
use stdio::input::Unread;
use stdio::out::Out;
use stdio::{input, told};

// As long as the longest file.
const MOST: usize = 1048576;

// The whole input as one step file. If it fills the buffer, it may be longer.
fn one(out: &mut Out, file: &[u8]) {
    if file.len() < MOST {
        run::file(out, file);
    } else {
        writeln!(out, "{Malformed}");
    }
    out.flush();
}

fn batched(out: &mut Out, file: &[u8]) {
    run::file(out, file);
    out.end_file();
}

// The files of a batch; the first one's length is in the buffer.
fn batch(stdin: Stdin, out: &mut Out, buf: &mut [u8]) -> Result<(), Unread> {
    let Some(file) = input::body(stdin, buf)? else {
        return Ok(());
    };
    batched(out, file);
    input::each_file(stdin, buf, |file| batched(out, file))
}

// One step file, or a batch.
fn run_input(stdin: Stdin, out: &mut Out) -> Result<(), Unread> {
    let mut bytes = input::zeros::<MOST>();
    let buf: &mut [u8] = &mut bytes;
    let got = input::head(stdin, buf)?;
    if 0 < got && buf.first() == Some(&83) {
        one(out, input::rest(stdin, buf, got)?);
    } else if got == 4 {
        return batch(stdin, out, buf);
    }
    Ok(())
}

fn main(rt: HostRuntime) {
    let mut out = Out::new(rt.stdout(), rt.stderr());
    if run_input(rt.stdin(), &mut out).is_err() {
        told::unread(rt.stderr());
    }
}
