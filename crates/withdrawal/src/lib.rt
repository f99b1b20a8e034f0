// A call taken out of the table: the last of its trip, day and sequence goes, and those behind it move down.
#![tactic(auto)]

ghost use Rattle.std.specs.Prelude.{◌≡◌};
ghost use Rattle.calls.specs.Tables.{blank_call};
ghost use Rattle.withdrawal.specs.Removal.{counted, last_of, closed_up, has_key, key_known};

use calls::{CALLS, Call, CallKey, NO_TRIP, blank_call};

// Whether a call can have the key: trip 65535 and days above 2 are no call's.
#[tactic(auto, unfolding(crate::specs::Removal::key_known))]
pub fn is_known(key: CallKey) -> bool
    ensures { result ≡ key_known key }
{
    key.trip < NO_TRIP && key.day <= 2
}

#[tactic(auto, unfolding(crate::specs::Removal::has_key))]
fn has_key(call: Call, key: CallKey) -> bool
    ensures { result ≡ has_key key call }
{
    call.key() == key
}

// The place of the last of the calls with the key.
pub fn last_of(calls: &[Call], key: CallKey) -> Option<usize>
    ensures { counted result ≡ last_of (has_key key) calls.now }
{
    calls.iter().rposition(|&call| has_key(call, key))
}

// The call at the place goes: it is blanked, and those behind it move down before it.
pub fn close_up(calls: &mut [Call; CALLS], at: usize)
    ensures { calls.new ≡ closed_up blank_call at calls.old }
{
    if at < CALLS {
        calls[at] = blank_call();
        calls[at..].rotate_left(1);
    }
}
