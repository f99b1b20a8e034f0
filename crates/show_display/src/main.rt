// Reads up to four load files from standard input, each after its length as a big-endian u32, and prints the display of groups 0 to 3:
// for each its journeys shown and its window, or a refusal. A file that is refused ends the run with its group and number; one that is
// longer than the buffer, or is not there whole, ends the reading. A read or a write that fails is told on standard error; after a failed
// read nothing is printed.
#![tactic(auto)]

mod text;

use groups::{Groups, group_of};
use reader::read;
use refusal::Refusal;
use std::io::Stdin;
use stdio::input::Unread;
use stdio::out::Out;
use stdio::{input, told};

// As long as the longest file.
const MOST: usize = 1048576;

// Why there is no display: a read failed, or the file of a group is refused.
#[derive(Clone, Copy, Debug, PartialEq, Eq)]
enum Stopped {
    Unread,
    Refused(u8, Refusal),
}

impl From<Unread> for Stopped {
    fn from(_e: Unread) -> Stopped {
        Stopped::Unread
    }
}

// Reads the groups of up to four files.
fn read_groups(stdin: Stdin, buf: &mut [u8]) -> Result<Groups, Stopped> {
    let mut groups = Groups::default();
    // It leaves where the input does, of which no chain of std can ask.
    for number in 0u8..4 {
        let Some(file) = input::file(stdin, buf)? else {
            break;
        };
        let took = read(file);
        if let Err(cause) = took.answer {
            return Err(Stopped::Refused(number, cause));
        }
        groups.add(group_of(number, took.reader.load));
    }
    Ok(groups)
}

fn main(rt: HostRuntime) {
    let mut out = Out::new(rt.stdout(), rt.stderr());
    let mut buf = input::zeros::<MOST>();
    match read_groups(rt.stdin(), &mut buf) {
        Ok(groups) => text::display(&mut out, groups.given()),
        Err(Stopped::Refused(number, cause)) => text::file_refused(&mut out, number, cause),
        Err(Stopped::Unread) => told::unread(rt.stderr()),
    }
}
