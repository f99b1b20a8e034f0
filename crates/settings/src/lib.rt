// The settings of a load: counts, walks, the change time, the start and the service days; and which are sent back (RULES 2, 16.2).
#![tactic(auto)]

ghost use Rattle.std.specs.Prelude.{◌≡◌, ◌||◌};
ghost use Rattle.refusal.specs.First.{first_answer};
ghost use Rattle.settings.specs.Settings.{near, all_near, over_counts, settings_tests, walks_of, canonical_of, kept_walk};

use refusal::{Accepted, Answer, Refusal};
use std::array;

// Walks past a count are ignored, and 0 in the settings of a load. Arrays beside their counts, since the core has no heap.
#[derive(Clone, Copy, Debug, Default, PartialEq, Eq)]
pub struct Settings {
    pub origins: u8,
    pub targets: u8,
    pub origin_walks: [u8; 4],
    pub target_walks: [u8; 4],
    pub transfer_seconds: u16,
    pub max_transfers: u8,
    pub now: i64,
    pub epochs: [i64; 3],
}

// Whether a clock time is within 2^40 of zero.
#[tactic(auto, unfolding(crate::specs::Settings::near))]
pub fn is_near(x: i64) -> bool
    ensures { result ≡ near x }
{
    -1099511627776 <= x && x <= 1099511627776
}

impl Settings {
    // Whether the start and the epochs are all near.
    #[tactic(auto, unfolding(crate::specs::Settings::all_near))]
    fn all_near(self) -> bool
        ensures { result ≡ all_near self.now self.epochs }
    {
        is_near(self.now) && self.epochs.iter().all(|&epoch| is_near(epoch))
    }

    #[tactic(auto, unfolding(crate::specs::Settings::over_counts))]
    fn over_counts(self) -> bool
        ensures { result ≡ over_counts self.origins self.targets self.max_transfers self.transfer_seconds }
    {
        4 < self.origins
            || 4 < self.targets
            || 2 < self.max_transfers
            || 15300 < self.transfer_seconds
    }
}

// Why settings are sent back: 1, 2.
#[tactic(auto, unfolding(crate::specs::Settings::settings_tests, refusal::specs::First::first_answer))]
pub fn settings_answer(s: Settings) -> Answer
    ensures { result ≡ first_answer (settings_tests s) }
{
    if s.over_counts() {
        return Err(Refusal::SettingsRange);
    }
    if !s.all_near() {
        return Err(Refusal::ClockRange);
    }
    Ok(Accepted::Taken)
}

fn kept_walk(count: u8, i: usize, walk: u8) -> u8
    ensures { result ≡ kept_walk count i walk }
{
    if i < usize::from(count) { walk } else { 0 }
}

// The first `count` walks, and 0 after them.
#[tactic(auto, unfolding(crate::specs::Settings::walks_of))]
fn walks_of(count: u8, walks: [u8; 4]) -> [u8; 4]
    ensures { result ≡ walks_of count walks }
{
    array::from_fn(|i| kept_walk(count, i, walks[i]))
}

// The settings as a load holds them.
#[tactic(auto, unfolding(crate::specs::Settings::canonical_of))]
pub fn canonical(s: Settings) -> Settings
    ensures { result ≡ canonical_of s }
{
    Settings {
        origin_walks: walks_of(s.origins, s.origin_walks),
        target_walks: walks_of(s.targets, s.target_walks),
        ..s
    }
}
