// The lines of a load: table, journeys, horizon and limits; and that of a refusal. `lines` prints some of them too, as bytes of a proved
// length; here they are printed among others by `write!`.
ghost use Rattle.std.specs.Prelude.{◌≤◌};

use crate::out::Out;
use call_order::sorted;
use calls::{CALLS, Call};
use prefix::first;
use profile::{Journey, Ride};
use refusal::Refusal;
use std::fmt;

// The table by trip, day, sequence, equals as taken: the first `count` of the array, which `sorted` takes whole.
pub fn table(out: &mut Out, calls: &[Call; CALLS], count: usize)
    ensures { out.new.len ≤ 65536 }
{
    for c in first(&sorted(calls, count), count) {
        writeln!(
            out,
            "call {} {} {} {} {} {} {} {} {} {}",
            c.trip,
            c.day,
            c.sequence,
            c.stop,
            c.arrival,
            c.departure,
            u8::from(c.board),
            u8::from(c.alight),
            u8::from(c.board_request),
            u8::from(c.alight_request)
        );
    }
}

// Leave, arrival, rides, walk, origin and target of a journey.
#[derive(Clone, Copy, Debug, PartialEq, Eq)]
pub struct Figures<'a>(pub &'a Journey);

impl fmt::Display for Figures<'_> {
    fn fmt<W: fmt::Write>(&self, f: &mut fmt::Formatter<W>) -> fmt::Result {
        let j = self.0;
        write!(
            f,
            "{} {} {} {} {} {}",
            j.leave, j.arrival, j.rides, j.walk, j.origin, j.target
        )
    }
}

// A ride after a bar.
#[derive(Clone, Copy, Debug, PartialEq, Eq)]
struct Barred<'a>(&'a Ride);

impl fmt::Display for Barred<'_> {
    fn fmt<W: fmt::Write>(&self, f: &mut fmt::Formatter<W>) -> fmt::Result {
        let r = self.0;
        write!(
            f,
            " | {} {} {} {} {} {} {} {}",
            r.trip,
            r.day,
            r.from,
            r.to,
            r.departure,
            r.arrival,
            u8::from(r.board_request),
            u8::from(r.alight_request)
        )
    }
}

// The rides of a journey in order: only one of three rides has a middle one.
#[derive(Clone, Copy, Debug, PartialEq, Eq)]
struct Rides<'a>(&'a Journey);

impl fmt::Display for Rides<'_> {
    fn fmt<W: fmt::Write>(&self, f: &mut fmt::Formatter<W>) -> fmt::Result {
        let j = self.0;
        write!(f, "{}", Barred(&j.first))?;
        if j.rides == 3 {
            write!(f, "{}", Barred(&j.middle))?;
        }
        if j.rides >= 2 {
            write!(f, "{}", Barred(&j.last))?;
        }
        Ok(())
    }
}

// The kept journeys, each with its rides in order.
pub fn journeys(out: &mut Out, kept: &[Journey])
    ensures { out.new.len ≤ 65536 }
{
    for j in kept {
        writeln!(out, "journey {}{}", Figures(j), Rides(j));
    }
}

pub fn horizon(out: &mut Out, horizon: u16, limits: u8)
    ensures { out.new.len ≤ 24576 }
{
    writeln!(out, "horizon {horizon} limits {limits}");
}

pub fn refused(out: &mut Out, r: Refusal)
    ensures { out.new.len ≤ 24576 }
{
    writeln!(out, "refused {}", u8::from(r));
}
