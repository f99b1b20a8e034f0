// `window`: a call's times from the start, and the call as it is seen up to a horizon.
ghost use Rattle.std.specs.Prelude.{◌≡◌, true, ◌+◌, pos, ◌+ℤ◌, ◌-ℤ◌};
ghost use Rattle.settings.specs.Settings.{near};
ghost use Rattle.calls.specs.Windows.{time_after, after, within, held, allowed, asked, seen_call, seen};

use crate::{Call, CallInput};
use settings::is_near;

#[tactic(auto, unfolding(settings::specs::Settings::near))]
fn since(epoch: i64, now: i64, seconds: u32) -> i64
    requires epoch_value { near epoch ≡ true }
    requires value { near now ≡ true }
    ensures { result ≡ epoch +ℤ pos seconds -ℤ now }
{
    epoch + (seconds as i64) - now
}

#[tactic(auto, unfolding(crate::specs::Windows::time_after))]
pub fn offset(epoch: i64, now: i64, seconds: u32) -> Option<u64>
    ensures { result ≡ time_after epoch now seconds }
{
    if !(is_near(epoch) && is_near(now)) {
        return None;
    }
    u64::try_from(since(epoch, now, seconds)).ok()
}

fn is_after(t: Option<u64>, h: u16) -> bool
    ensures { result ≡ after h t }
{
    matches!(t, Some(n) if u64::from(h) < n)
}

fn is_within(t: Option<u64>, h: u16) -> bool
    ensures { result ≡ within h t }
{
    matches!(t, Some(n) if n <= u64::from(h))
}

fn held_to(t: Option<u64>, h: u16) -> u16
    ensures { result ≡ held h t }
{
    t.map_or(0, |n| n.min(u64::from(h)) as u16)
}

// Of a kind, the byte that is handed in: 1 bars, 2 and 3 are on request.
fn may(inside: bool, kind: u8) -> bool
    ensures { result ≡ allowed inside kind }
{
    inside && kind != 1
}

fn on_request(may: bool, kind: u8) -> bool
    ensures { result ≡ asked may kind }
{
    may && matches!(kind, 2 | 3)
}

// A call that is handed in, with its times from the load's start; none for a time before it.
#[derive(Clone, Copy, Debug, PartialEq, Eq)]
pub struct Timed {
    pub input: CallInput,
    pub arrival: Option<u64>,
    pub departure: Option<u64>,
}

impl Timed {
    #[tactic(auto, unfolding(crate::specs::Windows::seen_call))]
    fn call(self, h: u16) -> Call
        ensures { result ≡ seen_call h self.arrival self.departure self.input }
    {
        let input = self.input;
        let board = may(is_within(self.departure, h), input.pickup);
        let alight = may(is_within(self.arrival, h), input.drop_off);
        Call {
            trip: input.trip,
            day: input.day,
            sequence: input.sequence,
            stop: input.stop,
            arrival: held_to(self.arrival, h),
            departure: held_to(self.departure, h),
            board,
            alight,
            board_request: on_request(board, input.pickup),
            alight_request: on_request(alight, input.drop_off),
        }
    }

    // What the window shows of the call up to a horizon, none outside it.
    #[tactic(auto, unfolding(crate::specs::Windows::seen))]
    pub fn view(self, h: u16) -> Option<Call>
        ensures { result ≡ seen h self.arrival self.departure self.input }
    {
        if self.departure.is_none() || is_after(self.arrival, h) {
            return None;
        }
        Some(self.call(h))
    }
}
