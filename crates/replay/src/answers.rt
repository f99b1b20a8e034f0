// One load file: its records handed in one by one, each call's answer noted, and all else as of the file read whole.
use crate::load_lines;
use fields::kind::Kind;
use fields::layout::kind_of;
use file::framed::Records;
use file::record::record;
use reader::{fresh, is_second, read};
use refusal::Accepted;
use stdio::load_lines::refused;
use stdio::out::Out;

// The letter of a call's answer.
fn letter(accepted: Accepted) -> char {
    match accepted {
        Accepted::Taken => 't',
        Accepted::Outside => 'o',
    }
}

// Notes the answers to the calls among the records after the version, up to a record that is refused.
fn answers(out: &mut Out, second: bool, records: &[u8]) {
    write!(out, "answers");
    let mut between = " ";
    let mut reader = fresh(second);
    for b in (Records { rest: records }) {
        let t = record(reader, b);
        let Ok(accepted) = t.answer else {
            break;
        };
        if kind_of(b) == Kind::Call as u8 {
            write!(out, "{between}{}", letter(accepted));
            between = "";
        }
        reader = t.reader;
    }
    writeln!(out);
}

// The answers and the load, or the refusal alone.
pub fn file(out: &mut Out, bytes: &[u8]) {
    let t = read(bytes);
    match t.answer {
        Ok(_) => {
            answers(out, is_second(bytes), bytes.get(1..).unwrap_or(&[]));
            load_lines::lines(out, t.reader.load);
        }
        Err(r) => refused(out, r),
    }
}
