// What a first ride leaves to the next: from when on journeys are passed over, of which of its figures leave and walk alone count.
ghost use Rattle.std.specs.Prelude.{◌≡◌, ℕ, ◌&&◌, eqb};
ghost use Rattle.search_input.specs.declared.FirstRide.{FirstRide};
ghost use Rattle.search_state.specs.View.{view};
ghost use Rattle.rides.specs.Over.{Over, Holds};

use candidate::passes_over;
use candidate::times::{late, threshold};
use search_input::FirstRide;
use search_state::layout::State;

// From when on journeys of one leave, walk and number of rides are passed over; and whether the kept rows were read for it, so that none is
// passed over before.
#[derive(Clone, Copy, Debug, PartialEq, Eq)]
pub struct Passed {
    pub from: u32,
    pub asked: bool,
}

// From when on journeys of one leave and walk are passed over, by one ride and by two; and whether the kept rows were read for the latter,
// so that none is passed over before.
#[derive(Clone, Copy, Debug, PartialEq, Eq)]
pub struct Since {
    pub one: u32,
    pub two: u32,
    pub asked: bool,
}

// What is known before any ride of a leave and walk.
pub fn since_none(st: &State) -> Since
    ensures { (f : FirstRide) → Holds st.now f result }
{
    let t = late(st);
    Since {
        one: t,
        two: t,
        asked: false,
    }
}

// Whether they leave alike and walk alike.
fn is_alike(f: FirstRide, before: FirstRide) -> bool
    ensures { result ≡ (eqb f.leave before.leave && eqb f.walk before.walk) }
{
    f.leave == before.leave && f.walk == before.walk
}

// What is known of f: the same as of the first ride before it, if they are alike.
pub fn since_for(st: &State, f: FirstRide, before: FirstRide, since: Since) -> Since
    requires { Holds st.now before since }
    ensures { Holds st.now f result }
{
    if is_alike(f, before) {
        return since;
    }
    since_none(st)
}

// What is known of one number of rides before any ride.
pub fn passed_none(st: &State) -> Passed
    ensures { (f : FirstRide) (rides : ℕ) → Over st.now f rides result.from }
{
    Passed {
        from: late(st),
        asked: false,
    }
}

// What is known of f, as in `since_for`.
pub fn passed_for(st: &State, f: FirstRide, before: FirstRide, passed: Passed) -> Passed
    ensures { (rides : ℕ) → Over st.now before rides passed.from → Over st.now f rides result.from }
{
    if is_alike(f, before) {
        return passed;
    }
    passed_none(st)
}

// What is known after it was asked, once for a leave and walk, whether the state passes over a journey of so many rides that is due at t.
// Where it doesn't, the kept rows say from when on it would.
pub fn asked_for(st: &mut State, f: FirstRide, rides: u16, t: u16, passed: Passed) -> Passed
    requires { Over st.old f rides passed.from }
    ensures state { view st.new ≡ view st.old }
    ensures over { Over st.new f rides result.from }
{
    if passed.asked {
        return passed;
    }
    if passes_over(st, f.figures(t, rides)) {
        return Passed {
            from: t as u32,
            asked: false,
        };
    }
    let from = threshold(st, f.leave, rides, f.walk);
    Passed { from, asked: true }
}

// The same of two.
pub fn asked(st: &mut State, f: FirstRide, t: u16, since: Since) -> Since
    requires { Over st.old f 2 since.two }
    ensures state { view st.new ≡ view st.old }
    ensures two { Over st.new f 2 result.two }
    ensures one { result.one ≡ since.one }
{
    let was = Passed {
        from: since.two,
        asked: since.asked,
    };
    let two = asked_for(st, f, 2, t, was);
    Since {
        two: two.from,
        asked: two.asked,
        ..since
    }
}
