// The nested loops of a search over lent arrays of numbers: each journey by one ride, two or three is offered to the running state, in
// order.
//
// A function that reads an array asks for a place below 512, one of an origin or target for a digit below 4, one that goes on along a run
// for a place among the calls, and one that goes on from a ride for at most one change left: each says so for itself, as a type for
// each number would be opened wherever the number is used. State, first ride and ride are three parameters: the first is changed, the
// second stays for many of the third. The calls are a fourth, and not in one struct with the first ride: `LastRides` and `ThreeRides`
// lend them from their own fields, so it would be made anew in each loop. Depth is asked once, and no loop reads it. What is
// given a time to look before asks that the state passes over from then on, and hands on a time of which that holds (`Over`).
#![tactic(auto)]

pub mod bits;
pub mod bounds;
pub mod call_list;
pub mod change;
pub mod firsts;
pub mod joined;
pub mod known;
pub mod last;
pub mod later;
pub mod lent;
mod offer;
mod onward;
pub mod paths;
pub mod reach;
mod since;
