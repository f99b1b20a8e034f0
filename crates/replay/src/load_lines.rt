// The lines of a load: table, places, journeys, horizon and limits; then the queries.
use crate::queries;
use load::Load;
use places::group::group_places;
use prefix::first;
use stdio::load_lines::{horizon, journeys, table};
use stdio::out::Out;

// Each stop's place; `-` for a stop that has none, for which `group_places` gives 65535.
fn places(out: &mut Out, load: Load) {
    let stops = first(&load.stops, load.stop_count);
    write!(out, "places");
    for place in first(&group_places(stops), stops.len()) {
        match *place {
            65535 => write!(out, " -"),
            place => write!(out, " {place}"),
        }
    }
    writeln!(out);
}

pub fn lines(out: &mut Out, load: Load) {
    let kept = first(&load.journeys, load.journey_count);
    table(out, &load.calls, load.call_count);
    if load.searched {
        places(out, load);
    }
    journeys(out, kept);
    horizon(out, load.horizon, load.limits);
    queries::bests(out, load, kept);
    queries::nexts(out, load, kept);
}
