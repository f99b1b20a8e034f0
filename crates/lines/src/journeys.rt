// A line for each journey, with its rides or without.
ghost use Rattle.std.specs.Prelude.{◌≡◌, cond, [], ◌*◌, length};
ghost use Rattle.laws.specs.Lists.{concat_map};
ghost use Rattle.buffer.specs.Put.{Put};
ghost use Rattle.lines.specs.Lines.{journey_text};
ghost use Rattle.lines.specs.Rides.{ride_text, rides_of, line_for, line_most};

use crate::text::numbers;
use buffer::Buffer;
use profile::{Journey, Ride};

fn put_journey(out: &mut Buffer<'_>, j: &Journey)
    ensures { Put 43 (journey_text j.now) out.old out.new }
{
    out.bytes(b"journey");
    numbers(
        out,
        &[
            j.leave,
            j.arrival,
            u16::from(j.rides),
            u16::from(j.walk),
            u16::from(j.origin),
            u16::from(j.target),
        ],
    );
}

fn put_ride(out: &mut Buffer<'_>, r: &Ride)
    ensures { Put 50 (ride_text r.now) out.old out.new }
{
    out.bytes(b" |");
    numbers(
        out,
        &[
            r.trip,
            u16::from(r.day),
            r.from,
            r.to,
            r.departure,
            r.arrival,
            u16::from(r.board_request),
            u16::from(r.alight_request),
        ],
    );
}

// Only one of three rides has a middle one. Tested here and in `stdio`, which prints: two methods of a journey would say no more.
fn put_rides(out: &mut Buffer<'_>, j: &Journey)
    ensures { Put 150 (concat_map ride_text (rides_of j.now)) out.old out.new }
{
    put_ride(out, &j.first);
    if 3 <= j.rides {
        put_ride(out, &j.middle);
    }
    if 2 <= j.rides {
        put_ride(out, &j.last);
    }
}

// The line of a journey, with its rides if they are asked for.
fn journey_line(out: &mut Buffer<'_>, rides: bool, j: &Journey)
    ensures { Put (line_most rides) (line_for rides j.now) out.old out.new }
{
    put_journey(out, j);
    if rides {
        put_rides(out, j);
    }
    out.byte(b'\n');
}

pub fn journey_lines(out: &mut Buffer<'_>, rides: bool, journeys: &[Journey])
    ensures { Put (line_most rides * length journeys.now) (concat_map (line_for rides) journeys.now) out.old out.new }
{
    for j in journeys {
        journey_line(out, rides, j);
    }
}
