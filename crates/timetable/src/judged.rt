// What is said of a connection, as plain numbers.
ghost use Rattle.std.specs.Prelude.{◌≡◌, min};
ghost use Rattle.timetable.specs.Verdicts.{leg_of, connection_of, said, cause_row, verdict_row, judged_by};

use connection::{Cause, Connection, Leg};
use listing::Verdict;
use load::Load;
use refusal::Answer;
use verdict::verdict;

// Of a connection that someone names, the first `rides` legs count.
#[repr(C)]
#[derive(Clone, Copy, Debug, Default, PartialEq, Eq)]
pub struct TimetableLeg {
    pub board: u32,
    pub alight: u32,
    pub trip: u16,
    pub day: u8,
}

#[repr(C)]
#[derive(Clone, Copy, Debug, Default, PartialEq, Eq)]
pub struct TimetableConnection {
    pub leg: [TimetableLeg; 3],
    pub origin: u8,
    pub target: u8,
    pub rides: u8,
}

#[repr(C)]
#[derive(Clone, Copy, Debug, Default, PartialEq, Eq)]
pub struct TimetableVerdict {
    pub a: u32,
    pub b: u32,
    pub c: u32,
    pub kind: u8,
    pub cause: u8,
    pub at: u8,
}

#[tactic(auto, unfolding(crate::specs::Verdicts::leg_of))]
fn leg_of(leg: TimetableLeg) -> Leg
    ensures { result ≡ leg_of leg }
{
    Leg {
        trip: leg.trip,
        day: leg.day,
        board: leg.board,
        alight: leg.alight,
    }
}

fn connection_of(c: &TimetableConnection) -> Connection
    ensures { result ≡ connection_of c.now }
{
    Connection {
        origin: c.origin,
        target: c.target,
        rides: c.rides,
        legs: [leg_of(c.leg[0]), leg_of(c.leg[1]), leg_of(c.leg[2])],
    }
}

fn said(kind: u8, at: u8) -> TimetableVerdict
    ensures { result ≡ said kind 0 at 0 0 0 }
{
    TimetableVerdict {
        kind,
        at,
        ..TimetableVerdict::default()
    }
}

fn impossible(cause: u8, at: u8, a: u32, b: u32, c: u32) -> TimetableVerdict
    ensures { result ≡ said 6 cause at a b c }
{
    TimetableVerdict {
        a,
        b,
        c,
        kind: 6,
        cause,
        at,
    }
}

// A place or a number of rules, of which there are fewer.
fn place_number(n: usize) -> u8
    ensures { result ≡ min n 255 }
{
    n.min(255) as u8
}

// Each cause has numbers of its own, so this is a table.
#[tactic(auto, unfolding(crate::specs::Verdicts::cause_row))]
fn cause_row(cause: Cause) -> TimetableVerdict
    ensures { result ≡ cause_row cause }
{
    match cause {
        Cause::RideCount(n) => impossible(1, 0, n as u32, 0, 0),
        Cause::NoCall(i, sequence) => impossible(2, i, sequence, 0, 0),
        Cause::BoardingBarred(i) => impossible(3, i, 0, 0, 0),
        Cause::AlightingBarred(i) => impossible(4, i, 0, 0, 0),
        Cause::NotLater(i) => impossible(5, i, 0, 0, 0),
        Cause::NotOrigin => impossible(6, 0, 0, 0, 0),
        Cause::NotTarget => impossible(7, 0, 0, 0, 0),
        Cause::TooEarly(walk, departure) => impossible(8, 0, walk, departure as u32, 0),
        Cause::TooManyChanges(n) => impossible(9, 0, n as u32, 0, 0),
        Cause::SameRun(i) => impossible(10, i, 0, 0, 0),
        Cause::Forbidden(i, rule) => impossible(11, i, place_number(rule) as u32, 0, 0),
        Cause::NoChange(i) => impossible(12, i, 0, 0, 0),
        Cause::TooShort(i, needed, arrival, departure) => {
            impossible(13, i, needed as u32, arrival as u32, departure as u32)
        }
    }
}

#[tactic(auto, unfolding(crate::specs::Verdicts::verdict_row))]
fn verdict_row(verdict: Verdict) -> TimetableVerdict
    ensures { result ≡ verdict_row verdict }
{
    match verdict {
        Verdict::NotFinished => said(0, 0),
        Verdict::Late => said(1, 0),
        Verdict::Listed(place) => said(2, place_number(place)),
        Verdict::AsGood(place) => said(3, place_number(place)),
        Verdict::Beaten(place) => said(4, place_number(place)),
        Verdict::Uncovered => said(5, 0),
        Verdict::Impossible(cause) => cause_row(cause),
    }
}

// Nothing is said by a refused file.
pub fn judged(answer: Answer, load: &Load, c: &TimetableConnection) -> TimetableVerdict
    ensures { result ≡ judged_by answer load.now c.now }
{
    match answer {
        Ok(_) => verdict_row(verdict(load, &connection_of(c))),
        Err(_) => said(0, 0),
    }
}
