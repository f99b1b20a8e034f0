// The margin of a stopped load's answer for second 0: the full search's answer is at most that much earlier (RULES 11.4).
#![tactic(auto)]

ghost use Rattle.std.specs.Prelude.{◌≡◌};
ghost use Rattle.margin.specs.Stopped.{margin_spec};

use best::best;
use load::Load;
use search::earliest::earliest_arrival;

// None of a load that is not stopped, and none with nothing found yet.
#[tactic(auto, using(search::proofs::EarliestLaws::earliest_or), unfolding(crate::specs::Stopped::margin_spec, crate::specs::Stopped::margin_from))]
pub fn margin_of(load: Load) -> Option<u16>
    ensures { result ≡ margin_spec load }
{
    if load.limit.is_none() {
        return None;
    }
    let found = best(load, 0)?;
    let earliest = earliest_arrival(&load).unwrap_or(0);
    Some((found.arrival as u32).saturating_sub(earliest) as u16)
}
