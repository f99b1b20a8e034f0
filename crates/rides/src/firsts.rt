// The first rides, in order: by boarding call, then origin, then alighting call.
ghost use Rattle.std.specs.Prelude.{◌≡◌, ◌≤◌, ◌<◌, ◌+◌, List, ℕ, length};
ghost use Rattle.search_input.specs.Layout.{call_room};

use crate::bits::Digits;
use crate::call_list::{Calls, Ride};
use crate::later::Later;
use search_input::can_walk;

// A first ride by its places, and the origin that one walks from.
#[derive(Clone, Copy, Debug, PartialEq, Eq)]
pub struct FirstLeg {
    pub origin: u8,
    pub ride: Ride,
    ghost of_four: { origin < 4 },
}

// Those that are left: first from `origin` those that board at the call at `board` and alight at one of `later`, then those from `origins`
// that board there, then those that board at `next` or behind it.
#[derive(Clone, Copy, Debug, PartialEq, Eq, Drop)]
pub struct FirstRides<'a> {
    pub calls: Calls<'a>,
    pub next: usize,
    pub board: usize,
    pub origins: Digits,
    pub origin: u8,
    pub later: Later<'a>,
    ghost placed: { (board < call_room) × (origin < 4) },
}

impl<'a> FirstRides<'a> {
    ghost use Rattle.laws.specs.Lists.{concat_map, span};
    ghost use Rattle.laws.specs.Bits.{bits_of};
    ghost use Rattle.ways.specs.Rides.{first_rides};
    ghost use Rattle.rides.specs.Places.{later_left};
    ghost use Rattle.rides.specs.Rows.{Joins, network_of};
    ghost use Rattle.rides.specs.Sheets.{sheet_of};
    ghost use Rattle.rides.specs.Firsts.{alight_firsts, origin_firsts, board_firsts, firsts_left};

    // All of them; no join is read.
    pub fn of(calls: &Calls<'a>) -> FirstRides<'a>
        ensures { (joins : Joins)
            → firsts_left result ≡ first_rides (network_of (sheet_of calls.now.feed.now) joins) (span 0 calls.now.n) }
    {
        FirstRides {
            calls: *calls,
            next: 0,
            board: 0,
            origins: Digits::of(0),
            origin: 0,
            later: Later::none(calls),
        }
    }

    // The origins of the call at i, if one can board there.
    fn origins_at(calls: &Calls<'a>, i: usize) -> Digits
        requires { i < call_room }
        ensures { concat_map (origin_firsts calls.now.feed.now calls.now.n i) (bits_of result.left)
            ≡ board_firsts calls.now.feed.now calls.now.n i }
    {
        let b = calls.at(i);
        if b.board {
            return calls.origins(b.stop);
        }
        Digits::of(0)
    }

    // Where a ride that boards at i may alight, if there is time to walk there from o.
    fn from_origin(calls: &Calls<'a>, i: usize, o: u8) -> Later<'a>
        requires { (i < call_room) × (o < 4) }
        ensures rides { alight_firsts calls.now.feed.now o i (later_left result) ≡ origin_firsts calls.now.feed.now calls.now.n i o }
        ensures few { length (later_left result) ≤ call_room }
    {
        if can_walk(calls.origin_walk(o), calls.at(i).departure) {
            return Later::than(calls, i);
        }
        Later::none(calls)
    }
}

impl<'a> Iterator for FirstRides<'a> {
    ghost use Rattle.std.specs.Iterator.{YieldsFirstBy, item_count};
    ghost use Rattle.rides.specs.Firsts.{leg_of, firsts_left};

    type Item = FirstLeg;

    ghost next_gives = { YieldsFirstBy leg_of firsts_left };

    ghost remaining = { item_count firsts_left };

    // A loop: a call where one can't alight, an origin too far and a call where one can't board give nothing, and the next is looked at.
    // What `next_gives` says rests on where the search stands between two calls of this, which a chain of std would not show.
    #[inline]
    fn next(&mut self) -> Option<FirstLeg> {
        'seek: loop {
            if let Some(k) = self.later.next() {
                if self.calls.at(k).alight {
                    return Some(FirstLeg {
                        origin: self.origin,
                        ride: Ride {
                            board: self.board,
                            alight: k,
                        },
                    });
                }
            } else if let Some(o) = self.origins.next() {
                self.origin = o;
                self.later = FirstRides::from_origin(&self.calls, self.board, o);
            } else if self.next < self.calls.n {
                let i = self.next;
                self.next = i + 1;
                self.board = i;
                self.origins = FirstRides::origins_at(&self.calls, i);
            } else {
                return None;
            }
        }
    }
}
