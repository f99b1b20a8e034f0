// The offer over plain numbers and a lent array, for programs in C and Rust to call.
#![tactic(auto)]

ghost use Rattle.std.specs.Prelude.{◌≡◌};
ghost use Rattle.profile.specs.Journeys.{row_of};
ghost use Rattle.search_state.specs.View.{view};
ghost use Rattle.candidate.specs.Offer.{offer_to, reads_to};

use candidate::{Offer, candidate};
use search_state::layout::State;

// Offers a journey to the state (`candidate`), an array of `search_state::layout`. How many kept journeys are read.
#[tactic(auto, unfolding(profile::specs::Journeys::row_of))]
#[unsafe(no_mangle)]
pub extern "C" fn profile_candidate(
    st: &mut State,
    leave: u16,
    arrival: u32,
    rides: u16,
    walk: u16,
    origin: u16,
    target: u16,
    board: u16,
    alight: u16,
    board2: u16,
    alight2: u16,
    middle_board: u16,
    middle_alight: u16,
) -> usize
    ensures { (view st.new ≡ offer_to (view st.old)
        (row_of leave arrival rides walk origin target board alight board2 alight2 middle_board middle_alight))
        × (result ≡ reads_to (view st.old)
        (row_of leave arrival rides walk origin target board alight board2 alight2 middle_board middle_alight)) }
{
    candidate(
        st,
        Offer {
            leave,
            arrival,
            rides,
            walk,
            origin,
            target,
            board,
            alight,
            board2,
            alight2,
            middle_board,
            middle_alight,
        },
    )
}
