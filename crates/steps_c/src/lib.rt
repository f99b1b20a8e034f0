// Stops, rules and calls handed to a load one by one, as many as asked, for programs in C and Rust to time.
#![tactic(auto)]

ghost use Rattle.std.specs.Prelude.{◌≡◌, ℕ, ◌<◌};
ghost use Rattle.load.specs.declared.Load.{Load};
ghost use Rattle.steps_c.specs.Steps.{plain_settings, plain_stop, with_stop, with_rule, with_call, turns, calls_held};

use calls::CallInput;
use load::Load;
use rules::Rule;
use settings::Settings;
use stops::{NewStop, StopInput};

// Not the default: a load has an origin and a target at least.
fn settings() -> Settings
    ensures { result ≡ plain_settings }
{
    Settings {
        origins: 1,
        targets: 1,
        ..Settings::default()
    }
}

// Not the default, by its members.
fn stop_input() -> StopInput
    ensures { result ≡ plain_stop }
{
    StopInput {
        location_type: 0,
        degrees: None,
        members: 1,
    }
}

// The number is a byte of the id.
#[tactic(auto, unfolding(crate::specs::Steps::with_stop))]
fn with_stop(load: Load, k: u16) -> Load
    requires { k < 256 }
    ensures { result ≡ with_stop k load }
{
    let stop = NewStop {
        id: &[k as u8, 65],
        name: None,
        parent: None,
        input: stop_input(),
    };
    load.stop(stop).load
}

#[tactic(auto, unfolding(crate::specs::Steps::with_rule))]
fn with_rule(load: Load, k: u16) -> Load
    ensures { result ≡ with_rule k load }
{
    let rule = Rule {
        from: k,
        to: 0,
        transfer_type: 0,
        seconds: None,
    };
    load.rule(rule).load
}

#[tactic(auto, unfolding(crate::specs::Steps::with_call))]
fn with_call(load: Load, k: u16) -> Load
    ensures { result ≡ with_call k load }
{
    let input = CallInput {
        trip: 1,
        day: 0,
        sequence: u32::from(k),
        stop: 0,
        arrival: Some(u32::from(k)),
        departure: Some(u32::from(k)),
        pickup: 0,
        drop_off: 0,
    };
    load.call(input).load
}

// The load after so many steps, each told how many are left after it.
fn handed<F: Fn(Load, u16) -> Load>(load: Load, times: u16, step: F) -> Load
    requires { (l : Load) (k : ℕ) → k < times → F.pre step l k }
    ensures { (f : ℕ → Load → Load) → ((l : Load) (k : ℕ) (r : Load) → k < times → F.post step l k r → r ≡ f k l)
        → result ≡ turns times f load }
{
    let mut next = load;
    for left in (0..times).rev() {
        next = step(next, left);
    }
    next
}

// So many stops, then rules, then calls: how many calls the load then holds.
#[unsafe(no_mangle)]
pub extern "C" fn load_steps(stop_count: u8, rule_count: u8, call_count: u16) -> usize
    ensures { result ≡ calls_held stop_count rule_count call_count }
{
    let opened = Load::open(settings()).load;
    let with_stops = handed(opened, u16::from(stop_count), with_stop);
    let with_rules = handed(with_stops, u16::from(rule_count), with_rule);
    handed(with_rules, call_count, with_call).call_count
}
