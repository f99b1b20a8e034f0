// The record of a stop that is taken.
ghost use Rattle.std.specs.Prelude.{◌≡◌, option_copied};
ghost use Rattle.stops.specs.Taken.{blank_stop, held_name, stop_of};

use crate::{NAME_BYTES, NewStop, Stop};
use texts::Text;

fn held_name(name: Option<&[u8]>) -> Option<Text<NAME_BYTES>>
    ensures { result ≡ held_name (option_copied name.entry) }
{
    name.map(Text::of)
}

// Texts that fit are held whole: no other is taken. No `From`: the station comes beside the stop.
#[tactic(auto, unfolding(crate::specs::Taken::stop_of))]
pub fn stop_of(stop: NewStop<'_>, station: Option<u16>) -> Stop
    ensures { result ≡ stop_of stop.entry.id.now (option_copied stop.entry.name) station stop.entry.input }
{
    let input = stop.input;
    Stop {
        id: Text::of(stop.id),
        name: held_name(stop.name),
        parent: station,
        location_type: input.location_type,
        degrees: input.degrees,
        members: input.members,
    }
}

// What an unused slot holds: the default, by a name that contracts can give it.
pub fn blank_stop() -> Stop
    ensures { result ≡ blank_stop }
{
    Stop::default()
}
