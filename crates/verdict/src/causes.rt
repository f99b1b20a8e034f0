// The causes of a connection, in order: the number of rides, leg by leg, the ends, the number of changes, change by change.
ghost use Rattle.std.specs.Prelude.{◌≡◌, take};
ghost use Rattle.connection.specs.Tests.{first_of};
ghost use Rattle.verdict.specs.Verdicts.{changes_asked, causes_by};

use crate::figures::last_leg;
use connection::changes::change_cause;
use connection::ends::{count_cause, ends_cause};
use connection::legs::{legs_cause, rides_cause};
use connection::{Cause, Connection, Way};
use load::Load;
use places::group::group_places;
use prefix::first;
use transfer::Transfers;
use transfer::copied::parents_of;

// Of the n - 1 changes. Parents and places are arrays that `Transfers` borrows, so no function can make it for this and for a search.
fn changes_cause(load: &Load, n: u8, way: &Way) -> Option<Cause>
    ensures { result ≡ first_of (changes_asked load.now.stops load.now.stop_count (take load.now.rule_count load.now.rules)
        load.now.settings.transfer_seconds n way.now) }
{
    let parents = parents_of(&load.stops);
    let places = group_places(first(&load.stops, load.stop_count));
    let transfers = Transfers {
        rules: first(&load.rules, load.rule_count),
        parents: &parents,
        places: &places,
        change: load.settings.transfer_seconds,
    };
    let earlier = change_cause(2 <= n, 0, &transfers, &way.first, &way.second);
    let later = change_cause(3 <= n, 1, &transfers, &way.second, &way.third);
    earlier.or(later)
}

// The first cause that holds, of the calls that were found.
pub fn cause_of(load: &Load, connection: &Connection, way: &Way) -> Option<Cause>
    ensures { result ≡ first_of (causes_by load.now.settings load.now.stops load.now.stop_count
        (take load.now.rule_count load.now.rules) connection.now way.now) }
{
    let n = connection.rides;
    let start = way.first.boards();
    let end = last_leg(n, way).alights();
    rides_cause(n)
        .or(legs_cause(n, connection.legs, way))
        .or(ends_cause(load.settings, &load.stops, connection, &start, &end))
        .or(count_cause(n, load.settings.max_transfers))
        .or(changes_cause(load, n, way))
}
