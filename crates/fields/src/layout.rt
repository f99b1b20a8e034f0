// Where the fields of a record stand, and whether they fill it. By place, as specs/ says where each field stands: a cursor would have to
// show at each field that it stands there. Bounds of places are clauses of their own: sums of places must fit.
ghost use Rattle.std.specs.Prelude.{◌≡◌, ◌+◌, ◌≤◌};
ghost use Rattle.fields.specs.Numbers.{byte_at, u16_at};
ghost use Rattle.fields.specs.Layout.{
  text_end,
  has_at,
  mark_at,
  option_end,
  option_text_end,
  target_walks_at,
  minutes_at,
  name_at,
  parent_at,
  type_at,
  members_at,
  stop_filled_of,
  departure_at,
  pickup_at,
  call_filled_of,
  rule_filled_of,
  search_filled_of,
};
ghost use Rattle.fields.specs.Second.{settings_filled_by};

use crate::numbers::{byte_at, u16_at};

// The kind of a record.
pub fn kind_of(b: &[u8]) -> u8
    ensures { result ≡ byte_at b.now 0 }
{
    byte_at(b, 0)
}

// The length that stands before a record.
pub fn length_of(b: &[u8]) -> u16
    ensures { result ≡ u16_at b.now 0 }
{
    u16_at(b, 0)
}

fn text_end(b: &[u8], at: usize) -> usize
    requires { at ≤ 2048 }
    ensures value { result ≡ text_end b.now at }
    ensures near { result ≤ at + 256 }
{
    at + 1 + usize::from(byte_at(b, at))
}

// Whether an optional field is there.
pub fn has_at(b: &[u8], at: usize) -> bool
    ensures { result ≡ has_at b.now at }
{
    byte_at(b, at) == 1
}

fn mark_at(b: &[u8], at: usize) -> bool
    ensures { result ≡ mark_at b.now at }
{
    byte_at(b, at) <= 1
}

#[tactic(auto, unfolding(crate::specs::Layout::option_end))]
fn option_end(b: &[u8], at: usize, size: usize) -> usize
    requires { (at ≤ 2048) × (size ≤ 16) }
    ensures value { result ≡ option_end b.now at size }
    ensures near { result ≤ at + 17 }
{
    if has_at(b, at) { at + 1 + size } else { at + 1 }
}

#[tactic(auto, unfolding(crate::specs::Layout::option_text_end))]
fn option_text_end(b: &[u8], at: usize) -> usize
    requires { at ≤ 2047 }
    ensures value { result ≡ option_text_end b.now at }
    ensures near { result ≤ at + 257 }
{
    if has_at(b, at) {
        text_end(b, at + 1)
    } else {
        at + 1
    }
}

// ---- settings

pub fn target_walks_at(b: &[u8]) -> usize
    ensures { result ≡ target_walks_at b.now }
{
    3 + usize::from(byte_at(b, 1))
}

pub fn minutes_at(b: &[u8]) -> usize
    ensures value { result ≡ minutes_at b.now }
    ensures near { result ≤ 513 }
{
    3 + usize::from(byte_at(b, 1)) + usize::from(byte_at(b, 2))
}

// By whether the file is of version 2, where there is a byte more. A bool, as `is_second` in specs/ says it: an enum would be made of that
// bool for each contract.
#[tactic(auto, unfolding(crate::specs::Layout::settings_filled_of, crate::specs::Second::second_settings_filled_of))]
pub fn settings_filled_by(second: bool, b: &[u8]) -> bool
    ensures { result ≡ settings_filled_by second b.now }
{
    minutes_at(b) + 34 + usize::from(second) == b.len()
}

// ---- stop

pub fn name_at(b: &[u8]) -> usize
    ensures value { result ≡ name_at b.now }
    ensures near { result ≤ 257 }
{
    text_end(b, 1)
}

pub fn parent_at(b: &[u8]) -> usize
    ensures value { result ≡ parent_at b.now }
    ensures near { result ≤ 514 }
{
    option_text_end(b, name_at(b))
}

pub fn type_at(b: &[u8]) -> usize
    ensures value { result ≡ type_at b.now }
    ensures near { result ≤ 771 }
{
    option_text_end(b, parent_at(b))
}

pub fn members_at(b: &[u8]) -> usize
    ensures value { result ≡ members_at b.now }
    ensures near { result ≤ 789 }
{
    option_end(b, type_at(b) + 1, 16)
}

#[tactic(auto, unfolding(crate::specs::Layout::stop_filled_of))]
pub fn stop_filled(b: &[u8]) -> bool
    ensures { result ≡ stop_filled_of b.now }
{
    members_at(b) + 1 == b.len()
        && mark_at(b, name_at(b))
        && mark_at(b, parent_at(b))
        && mark_at(b, type_at(b) + 1)
}

// ---- call

pub fn departure_at(b: &[u8]) -> usize
    ensures value { result ≡ departure_at b.now }
    ensures near { result ≤ 27 }
{
    option_end(b, 10, 4)
}

pub fn pickup_at(b: &[u8]) -> usize
    ensures value { result ≡ pickup_at b.now }
    ensures near { result ≤ 44 }
{
    option_end(b, departure_at(b), 4)
}

#[tactic(auto, unfolding(crate::specs::Layout::call_filled_of))]
pub fn call_filled(b: &[u8]) -> bool
    ensures { result ≡ call_filled_of b.now }
{
    pickup_at(b) + 2 == b.len() && mark_at(b, 10) && mark_at(b, departure_at(b))
}

// ---- rule and search

#[tactic(auto, unfolding(crate::specs::Layout::rule_filled_of))]
pub fn rule_filled(b: &[u8]) -> bool
    ensures { result ≡ rule_filled_of b.now }
{
    option_end(b, 6, 2) == b.len() && mark_at(b, 6)
}

#[tactic(auto, unfolding(crate::specs::Layout::search_filled_of))]
pub fn search_filled(b: &[u8]) -> bool
    ensures { result ≡ search_filled_of b.now }
{
    1 == b.len()
}
