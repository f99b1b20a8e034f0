// What is asked of the ends: the first stop is of the origin, the last of the target, and there is time to walk to the first.
ghost use Rattle.std.specs.Prelude.{◌≡◌, get_or};
ghost use Rattle.stops.specs.Sound.{stop_at};
ghost use Rattle.connection.specs.Tests.{first_of};
ghost use Rattle.connection.specs.Ends.{low_digit, is_member_of, end_tests, count_tests};

use crate::tests::first_of;
use crate::{Cause, Connection};
use calls::Call;
use search_input::can_walk;
use settings::Settings;
use stops::Stop;

// One of the four lowest digits of a byte.
#[tactic(auto, unfolding(crate::specs::Ends::low_digit))]
fn low_digit(k: u8, m: u8) -> bool
    ensures { result ≡ low_digit k m }
{
    k < 4 && (m >> k) % 2 == 1
}

#[tactic(auto, unfolding(crate::specs::Ends::is_member_of))]
pub fn is_member(count: u8, k: u8, m: u8) -> bool
    ensures { result ≡ is_member_of count k m }
{
    k < count && low_digit(k, m)
}

// The membership byte of the stop of a number, 0 past the last.
#[tactic(auto, unfolding(stops::specs::Sound::stop_at))]
pub fn members_at(stops: &[Stop], k: u16) -> u8
    ensures { result ≡ (stop_at stops.now k).members }
{
    stops.get(usize::from(k)).map_or(0, |stop| stop.members)
}

// The minutes of the walk of a number, 0 past the last.
pub fn walk_at(walks: &[u8], k: u8) -> u8
    ensures { result ≡ get_or walks.now k 0 }
{
    walks.get(usize::from(k)).copied().unwrap_or(0)
}

// Of the calls where the first ride boards and the last alights.
pub fn ends_cause(
    settings: Settings,
    stops: &[Stop],
    connection: &Connection,
    start: &Call,
    end: &Call,
) -> Option<Cause>
    ensures { result ≡ first_of (end_tests settings.origins settings.targets connection.now.origin connection.now.target
        (stop_at stops.now start.now.stop).members (stop_at stops.now end.now.stop).members
        (get_or settings.origin_walks connection.now.origin 0) start.now.departure) }
{
    let from = members_at(stops, start.stop);
    let to = members_at(stops, end.stop) / 16;
    let walk = walk_at(&settings.origin_walks, connection.origin);
    let seconds = u32::from(walk) * 60;
    let left = is_member(settings.origins, connection.origin, from);
    let reached = is_member(settings.targets, connection.target, to);
    let in_time = can_walk(u16::from(walk), start.departure);
    first_of(&[
        (!left, Cause::NotOrigin),
        (!reached, Cause::NotTarget),
        (!in_time, Cause::TooEarly(seconds, start.departure)),
    ])
}

// `most` changes may be made.
pub fn count_cause(n: u8, most: u8) -> Option<Cause>
    ensures { result ≡ first_of (count_tests n most) }
{
    let too_many = u16::from(most) + 1 < u16::from(n);
    first_of(&[(too_many, Cause::TooManyChanges(most))])
}
