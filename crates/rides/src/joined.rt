// How early the rides that one joins lead to a target, by the place where that one alights: of all of them, and of those that board in each
// block of calls. A block none of whose rides is early enough is passed over by one number, or each of 50,000 first rides could look at 512
// calls. `boards` has a number for those that board at each place: as last rides, or with rides after them (`reach`).
ghost use Rattle.std.specs.Prelude.{◌≡◌, ℕ, ◌≤◌, ◌<◌, length, get_or};
ghost use Rattle.rides.specs.Over.{Joined, Alights};
ghost use Rattle.rides.specs.Reach.{block_count, block_end, Least, LeastByBlock};
ghost use Rattle.search_input.specs.Layout.{call_room};

use crate::last::LastRides;
use crate::lent::Lent;
use search_input::FirstRide;
use search_input::layout::CALLS;

// How many calls are in a block, and how many blocks there are.
pub(crate) const BLOCK: usize = 32;

pub(crate) const BLOCKS: usize = CALLS / BLOCK;

// By place. Those of last rides are put in the first time that a place is asked for: a 0, no later than any time, stands there before.
#[derive(Clone, Copy, Debug, PartialEq, Eq)]
pub struct JoinedTimes {
    pub least: [u16; CALLS],
    pub blocks: [[u16; BLOCKS]; CALLS],
}

// Before any place is asked for.
pub(crate) fn joined_none(last: &LastRides) -> JoinedTimes
    ensures { Joined last.now result }
{
    JoinedTimes {
        least: [0; CALLS],
        blocks: [[0; BLOCKS]; CALLS],
    }
}

// The place behind the block that begins at `from`.
pub(crate) fn block_end(n: usize, from: usize) -> usize
    requires { (n ≤ call_room) × (from < call_room) }
    ensures { result ≡ block_end n from }
{
    n.min(from + BLOCK)
}

// The earliest of the rides that p joins, of those that board in the block that begins at `from`.
fn block_least(lent: &Lent, boards: &[u16], p: FirstRide, from: usize) -> u16
    requires { (from < call_room) × (call_room ≤ length boards.now) }
    ensures { Least lent.now.calls.feed.now lent.now.changes.now boards.now p from (block_end lent.now.calls.n from) result }
{
    // By value, so that the loop doesn't read where the arrays stand.
    let lent = *lent;
    let mut t = 65535u16;
    for c in from..block_end(lent.calls.n, from) {
        if lent.can_board(p, c) {
            t = t.min(boards[c]);
        }
    }
    t
}

// The same of each block. Not inlined: within the loop over the places (`reach`) its own loops take a sixth longer.
#[inline(never)]
pub(crate) fn blocks_least(lent: &Lent, boards: &[u16], p: FirstRide) -> [u16; BLOCKS]
    requires { call_room ≤ length boards.now }
    ensures { LeastByBlock lent.now.calls.feed.now lent.now.changes.now boards.now lent.now.calls.n p result }
{
    let mut row = [65535u16; BLOCKS];
    for b in 0..BLOCKS {
        row[b] = block_least(lent, boards, p, b * BLOCK);
    }
    row
}

// The least of them.
pub(crate) fn row_least(row: &[u16; BLOCKS]) -> u16
    ensures { (b : ℕ) → b < block_count → result ≤ get_or row.now b 0 }
{
    let mut t = 65535u16;
    for b in 0..BLOCKS {
        t = t.min(row[b]);
    }
    t
}

// The earliest that a last ride that f joins is at a target, from the number where f alights; with it the numbers of the blocks are put in.
pub(crate) fn joined_time(joined: &mut JoinedTimes, last: &LastRides, f: FirstRide) -> u16
    requires { Alights last.now.lent.calls.feed.now last.now.lent.calls.n f × Joined last.now joined.old }
    ensures array { Joined last.now joined.new }
    ensures time { Least last.now.lent.calls.feed.now last.now.lent.changes.now last.now.bounds.now f 0 last.now.lent.calls.n result }
{
    let m = f.alight as usize;
    if joined.least[m] != 0 {
        return joined.least[m];
    }
    let bounds = last.bounds;
    let row = blocks_least(&last.lent, bounds, f);
    let t = row_least(&row);
    joined.blocks[m] = row;
    joined.least[m] = t;
    t
}
