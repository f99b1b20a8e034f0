// Time texts, to seconds: digits, ':', two digits, ':', two digits (RULES 14).
#![tactic(auto)]

ghost use Rattle.std.specs.Prelude.{◌≡◌, ◌≤◌, IsTrue, [], ◌∷◌};
ghost use Rattle.time.specs.Text.{is_digit, number, sixty, time_of};
ghost use Rattle.time.specs.Hours.{with_hours};

use refusal::Refusal;

#[tactic(auto, unfolding(crate::specs::Text::is_digit))]
fn digit(b: u8) -> bool
    ensures value { result ≡ is_digit b }
    ensures bound { IsTrue result → 48 ≤ b }
{
    b.is_ascii_digit()
}

// The number that two digits stand for; 0 stands for any other byte below '0'. By hand: the library's `parse` takes a sign too.
fn pair(a: u8, b: u8) -> u32
    ensures { result ≡ number (a ∷ b ∷ []) }
{
    u32::from(a.saturating_sub(b'0')) * 10 + u32::from(b.saturating_sub(b'0'))
}

// Two digits, below 60.
#[tactic(auto, unfolding(crate::specs::Text::sixty))]
fn below_sixty(a: u8, b: u8) -> bool
    ensures { result ≡ sixty (a ∷ b ∷ []) }
{
    digit(a) && digit(b) && pair(a, b) < 60
}

// The hours, which are all digits, and `rest`, the seconds past the hour. Hours past 1193046 are over u32, so reading ends there: a loop,
// whose invariant says that ten times the number fits. A step handed to `try_fold` would have to fit at any number.
fn with_hours(hours: &[u8], rest: u32) -> Result<u32, Refusal>
    ensures { result ≡ with_hours 0 hours.now rest }
{
    let mut v: u32 = 0;
    for &b in hours {
        if !digit(b) {
            return Err(Refusal::TimeText);
        }
        v = v * 10 + u32::from(b - b'0');
        if 1193046 < v {
            return Err(Refusal::TimeText);
        }
    }
    (v * 3600).checked_add(rest).ok_or(Refusal::TimeText)
}

// The form is read from the end: the last six bytes are ':', two digits, ':', two digits, and all before them are hours.
#[tactic(auto, using(crate::proofs::Laws::short, crate::proofs::Laws::first_other, crate::proofs::Laws::second_other, crate::proofs::Laws::no_minutes, crate::proofs::Laws::no_seconds))]
pub fn from_str(text: &[u8]) -> Result<u32, Refusal>
    ensures { result ≡ time_of text.now }
{
    let [hours @ .., b':', a, b, b':', c, d] = text else {
        return Err(Refusal::TimeText);
    };
    if hours.is_empty() || !below_sixty(*a, *b) || !below_sixty(*c, *d) {
        return Err(Refusal::TimeText);
    }
    with_hours(hours, pair(*a, *b) * 60 + pair(*c, *d))
}
