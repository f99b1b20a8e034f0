// The parents of stops as plain numbers, copied once before a search.
ghost use Rattle.std.specs.Prelude.{◌≡◌};
ghost use Rattle.std.specs.Option.{unwrap_or};
ghost use Rattle.stops.specs.Sound.{stop_at};
ghost use Rattle.transfer.specs.Copied.{parents_of};
ghost use Rattle.stops.specs.Sizes.{no_stop};

use std::array;
use stops::{NO_STOP, STOPS, Stop};

// The parent of the stop at place k, which is no count; 65535 where there is none, as in the arrays that C lends.
#[tactic(auto, unfolding(stops::specs::Sound::stop_at))]
fn parent_at(stops: &[Stop], k: usize) -> u16
    ensures { result ≡ unwrap_or (stop_at stops.now k).parent no_stop }
{
    stops.get(k).and_then(|stop| stop.parent).unwrap_or(NO_STOP)
}

// That of each of 128.
pub fn parents_of(stops: &[Stop]) -> [u16; STOPS]
    ensures { result ≡ parents_of stops.now }
{
    array::from_fn(|k| parent_at(stops, k))
}
