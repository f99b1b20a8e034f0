// A display of four full lists, by their arrivals, for programs in C and Rust to time.
#![tactic(auto)]

ghost use Rattle.std.specs.Prelude.{◌≡◌};
ghost use Rattle.display.specs.Parts.{window_to};
ghost use Rattle.display_c.specs.Full.{due_at, list_due, full_group, last_window};

use calls::LONGEST_HORIZON;
use display::part::Part;
use display::{deal, part_of};
use groups::Group;
use profile::{Journey, KEPT, no_journey};

fn due_at(arrival: u16) -> Journey
    ensures { result ≡ due_at arrival }
{
    Journey {
        arrival,
        ..no_journey()
    }
}

fn list_due(arrivals: &[u16; KEPT]) -> [Journey; KEPT]
    ensures { result ≡ list_due arrivals.now }
{
    arrivals.map(due_at)
}

// A searched load that keeps 64 journeys.
fn full_group(number: u8, arrivals: &[u16; KEPT]) -> Group
    ensures { result ≡ full_group number arrivals.now }
{
    let journeys = list_due(arrivals);
    Group {
        number,
        searched: true,
        now: 0,
        horizon: LONGEST_HORIZON,
        count: KEPT,
        journeys,
    }
}

fn window_to(part: Part) -> u16
    ensures { result ≡ window_to part }
{
    match part {
        Some(Ok(shown)) => shown.window,
        _ => 0,
    }
}

// The window of the last of four such groups: four lists are made, and a display is dealt from them. Four arrays, as C hands them in.
#[unsafe(no_mangle)]
pub extern "C" fn full_display(
    a: &[u16; KEPT],
    b: &[u16; KEPT],
    c: &[u16; KEPT],
    d: &[u16; KEPT],
) -> u16
    ensures { result ≡ last_window a.now b.now c.now d.now }
{
    let given = [
        full_group(0, a),
        full_group(1, b),
        full_group(2, c),
        full_group(3, d),
    ];
    window_to(part_of(deal(&given), 3))
}
