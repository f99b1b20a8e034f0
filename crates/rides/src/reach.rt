// How early one can be at a target from where a ride alights, by so many further rides: 512 numbers for each number of changes left, and
// 512 rows of them by blocks of the calls where the next ride boards.
// A time past 65535 is cut to it, which also stands where no target is reached: a minimum begins with it, so it needs no option.
ghost use Rattle.std.specs.Prelude.{◌≡◌, [], ◌∷◌, ◌+◌, ◌≤◌, ◌<◌};
ghost use Rattle.rides.specs.Bounds.{AtCall};
ghost use Rattle.rides.specs.Reach.{Onward, BoardAt, JoinsAt, RowAt, EachOf, Each};
ghost use Rattle.search_input.specs.Layout.{call_room};

use crate::bounds::alight_bound;
use crate::call_list::{Calls, Ride};
use crate::joined::{BLOCKS, blocks_least, row_least};
use crate::lent::Lent;
use search_input::layout::CALLS;

// The numbers by place: from where a ride alights, with no change left, one and two; and of the rides that board there, with no change
// left after them and one.
#[derive(Clone, Copy, Debug, PartialEq, Eq)]
pub struct Times {
    pub on: [[u16; CALLS]; 3],
    pub boards: [[u16; CALLS]; 2],
}

// For each place those of the rides that one that alights there joins, by blocks.
pub type Rows = [[u16; BLOCKS]; CALLS];

// With no change left: the targets of the stop at each place.
fn put_targets(calls: &Calls) -> [u16; CALLS]
    ensures { Each (AtCall calls.now.feed.now) 0 calls.now.n result }
{
    let mut at = [65535u16; CALLS];
    for m in 0..calls.n {
        at[m] = alight_bound(calls, m);
    }
    at
}

// The earliest for whoever boards at j: the number of the next call of its run, or of whoever boards there. Two arrays of one length, as
// `boards` is being filled from what `at` holds.
fn board_time(boards: &[u16; CALLS], calls: &Calls, at: &[u16; CALLS], j: usize) -> u16
    requires { (j < calls.now.n) × Each (BoardAt calls.now.feed.now calls.now.n at.now) (j + 1) calls.now.n boards.now }
    ensures { BoardAt calls.now.feed.now calls.now.n at.now j result }
{
    if calls.goes_on(j) {
        return boards[j + 1].min(at[j + 1]);
    }
    65535
}

// The same of every place, from the right.
fn put_boards(calls: &Calls, at: &[u16; CALLS]) -> [u16; CALLS]
    ensures { Each (BoardAt calls.now.feed.now calls.now.n at.now) 0 calls.now.n result }
{
    let mut boards = [65535u16; CALLS];
    for j in (0..calls.n).rev() {
        let t = board_time(&boards, calls, at, j);
        boards[j] = t;
    }
    boards
}

// The rides that a ride joins that alights at m, by blocks, if one can alight there.
fn row_at(lent: &Lent, boards: &[u16; CALLS], m: usize) -> [u16; BLOCKS]
    requires { m < call_room }
    ensures { RowAt lent.now.calls.feed.now lent.now.changes.now lent.now.calls.n boards.now m result }
{
    if lent.calls.at(m).alight {
        let r = Ride {
            board: m,
            alight: m,
        };
        return blocks_least(lent, boards, lent.calls.first_ride(r, 0));
    }
    [65535; BLOCKS]
}

// The same of every place; gives the earliest of all of them.
fn put_joined(lent: &Lent, boards: &[u16; CALLS], rows: &mut Rows) -> [u16; CALLS]
    ensures least { Each (JoinsAt lent.now.calls.feed.now lent.now.changes.now lent.now.calls.n boards.now) 0 lent.now.calls.n result }
    ensures rows { EachOf call_room [] (RowAt lent.now.calls.feed.now lent.now.changes.now lent.now.calls.n boards.now)
        0 lent.now.calls.n rows.new }
{
    let mut at = [65535u16; CALLS];
    for m in 0..lent.calls.n {
        let row = row_at(lent, boards, m);
        at[m] = row_least(&row);
        rows[m] = row;
    }
    at
}

// From the last ride back. The rows are put where they are to stand, as they are large.
pub fn onward_times(lent: &Lent, by_last: &mut Rows, by_middle: &mut Rows) -> Times
    ensures { Onward result.on result.boards (by_last.new ∷ by_middle.new ∷ []) lent.now.calls.feed.now lent.now.changes.now lent.now.calls.n }
{
    let calls = &lent.calls;
    let none = put_targets(calls);
    let last = put_boards(calls, &none);
    let one = put_joined(lent, &last, by_last);
    let middle = put_boards(calls, &one);
    let two = put_joined(lent, &middle, by_middle);
    Times {
        on: [none, one, two],
        boards: [last, middle],
    }
}
