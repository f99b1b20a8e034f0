// The load of a file searched, or a call added to it or withdrawn from it, many times, for programs in C and Rust to time.
ghost use Rattle.std.specs.Prelude.{◌≡◌};
ghost use Rattle.file.specs.File.{read_spec_of};
ghost use Rattle.load.specs.declared.Load.{Load};
ghost use Rattle.load.specs.declared.StepResult.{StepResult};
ghost use Rattle.search.specs.Search.{search_spec};
ghost use Rattle.withdrawal.specs.Removal.{key_of};
ghost use Rattle.load_c.specs.Searches.{sum_of, call_at, alteration_of, horizon_after};

use again::{add, withdraw};
use calls::{CallInput, CallKey};
use load::{Load, StepResult};
use reader::read;
use search::search;

// So many turns of one load, its mark the parity of those that are left: the sum of the horizons that the step leaves.
fn summed<F: Fn(Load) -> StepResult>(load: Load, times: u16, step: F) -> u64
    requires { F.IsAlwaysCallable step }
    ensures { (f : Load → StepResult) → ((l : Load) (r : StepResult) → F.post step l r → r ≡ f l)
        → result ≡ sum_of (horizon_after f) times load }
{
    let mut next = load;
    let mut sum: u64 = 0;
    for left in (0..times).rev() {
        next.table_limits = (left % 2) as u8;
        sum += u64::from(step(next).load.horizon);
    }
    sum
}

// The file read, then searched so many times.
#[unsafe(no_mangle)]
pub extern "C" fn load_searches(bytes: &[u8], times: u16) -> u64
    ensures { result ≡ sum_of (horizon_after search_spec) times (read_spec_of bytes.now).reader.load }
{
    summed(read(bytes).reader.load, times, search)
}

fn call(trip: u16, sequence: u32, stop: u16, second: u32) -> CallInput
    ensures { result ≡ call_at trip sequence stop second }
{
    CallInput {
        trip,
        day: 0,
        sequence,
        stop,
        arrival: Some(second),
        departure: Some(second),
        pickup: 0,
        drop_off: 0,
    }
}

// The key of a call that is handed in. No `From` in `calls`: nothing else asks it of such a call.
fn key_of(input: CallInput) -> CallKey
    ensures { result ≡ key_of input }
{
    CallKey {
        trip: input.trip,
        day: input.day,
        sequence: input.sequence,
    }
}

// The file read, then so many times a call of day 0 added to its load, or the call of that key withdrawn.
// C hands in the flag and the numbers one by one.
#[unsafe(no_mangle)]
pub extern "C" fn load_alterations(
    bytes: &[u8],
    adds: bool,
    trip: u16,
    sequence: u32,
    stop: u16,
    second: u32,
    times: u16,
) -> u64
    ensures { result
        ≡ sum_of (horizon_after (alteration_of adds (call_at trip sequence stop second))) times (read_spec_of bytes.now).reader.load }
{
    let load = read(bytes).reader.load;
    let input = call(trip, sequence, stop, second);
    let key = key_of(input);
    if adds {
        summed(load, times, |load| add(load, &[], input))
    } else {
        summed(load, times, |load| withdraw(load, key))
    }
}
