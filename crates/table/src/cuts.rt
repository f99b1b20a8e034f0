// The table of calls: cuts to a smaller horizon, and a call put in after as many as it takes.
ghost use Rattle.std.specs.Prelude.{◌≡◌};
ghost use Rattle.calls.specs.Tried.{tried};
ghost use Rattle.calls.specs.Tables.{due_by, trim, cut, fitted};
ghost use Rattle.calls.specs.Calls.{ended};

use calls::window::Timed;
use calls::{CALLS, Call, Fitted, Table, blank_call};
use prefix::first;
use profile::LEAST_HORIZON;
use refusal::{Accepted, Refusal};

fn due(call: Call, h: u16) -> bool
    ensures { result ≡ due_by h call }
{
    call.arrival <= h
}

// A call at a smaller horizon: its departure held to it, and no boarding where it was.
#[tactic(auto, unfolding(calls::specs::Tables::trim))]
fn trimmed(call: Call, h: u16) -> Call
    ensures { result ≡ trim h call }
{
    if call.departure <= h {
        return call;
    }
    Call {
        departure: h,
        board: false,
        board_request: false, // the mark goes with it
        ..call
    }
}

// The table at a smaller horizon: the calls that are due by it, trimmed, in order, and blanks after them.
fn cut_to(t: Table, h: u16) -> Table
    ensures { result ≡ cut h t }
{
    let mut calls = [blank_call(); CALLS];
    let mut count: usize = 0;
    for &call in first(&t.calls, t.count) {
        if due(call, h) {
            calls[count] = trimmed(call, h);
            count += 1;
        }
    }
    Table {
        calls,
        count,
        horizon: h,
        limits: 1,
    }
}

// The call in the table, after as many cuts as it takes. A loop with three ways out, as no iterator has.
pub fn fit(table: Table, timed: Timed) -> Result<Fitted, Refusal>
    ensures { tried table result ≡ ended table (fitted table timed.arrival timed.departure timed.input) }
{
    let mut t = table;
    loop {
        let Some(call) = timed.view(t.horizon) else {
            return Ok(Fitted {
                accepted: Accepted::Outside,
                table: t,
            });
        };
        if t.count < CALLS {
            t.calls[t.count] = call;
            t.count += 1;
            return Ok(Fitted {
                accepted: Accepted::Taken,
                table: t,
            });
        }
        let less = t.horizon - t.horizon / 4;
        if less < LEAST_HORIZON {
            return Err(Refusal::NoRoom);
        }
        t = cut_to(t, less);
    }
}
