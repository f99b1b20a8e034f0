// What a filled record hands in. The bytes and a place stay two parameters, as in `layout`; a place stands near the start.
ghost use Rattle.std.specs.Prelude.{◌≡◌, ◌≤◌, ◌*◌, cond};
ghost use Rattle.fields.specs.Numbers.{byte_at, u16_at};
ghost use Rattle.fields.specs.Records.{walks_at, degrees_at, stop_in, seconds_at, call_in, rule_in};
ghost use Rattle.fields.specs.Second.{settings_by};

use crate::layout::{
    departure_at, has_at, members_at, minutes_at, pickup_at, target_walks_at, type_at,
};
use crate::numbers::{byte_at, bytes_at, f64_at, i64_at, u16_at, u32_at};
use calls::CallInput;
use place::Degrees;
use rules::Rule;
use settings::Settings;
use stops::StopInput;

#[tactic(auto, unfolding(crate::specs::Records::walks_at, crate::specs::Numbers::bytes_at, laws::specs::Tables::table))]
fn walks_at(b: &[u8], at: usize) -> [u8; 4]
    requires { at ≤ 1024 }
    ensures { result ≡ walks_at b.now at }
{
    bytes_at(b, at)
}

// The seconds to change at a place, by whether the file is of version 2: that has two bytes of them, version 1 one of minutes.
fn change_at(second: bool, b: &[u8], at: usize) -> u16
    requires { at ≤ 1024 }
    ensures { result ≡ cond second (u16_at b.now at) (byte_at b.now at * 60) }
{
    if second {
        u16_at(b, at)
    } else {
        u16::from(byte_at(b, at)) * 60
    }
}

// By whether the file is of version 2.
#[tactic(auto, unfolding(crate::specs::Records::settings_in, crate::specs::Second::second_settings_in))]
pub fn settings_by(second: bool, b: &[u8]) -> Settings
    ensures { result ≡ settings_by second b.now }
{
    let at = minutes_at(b);
    let next = at + 1 + usize::from(second);
    Settings {
        origins: byte_at(b, 1),
        targets: byte_at(b, 2),
        origin_walks: walks_at(b, 3),
        target_walks: walks_at(b, target_walks_at(b)),
        transfer_seconds: change_at(second, b, at),
        max_transfers: byte_at(b, next),
        now: i64_at(b, next + 1),
        epochs: [
            i64_at(b, next + 9),
            i64_at(b, next + 17),
            i64_at(b, next + 25),
        ],
    }
}

// A position's two floats.
#[tactic(auto, unfolding(crate::specs::Records::degrees_at))]
fn degrees_at(b: &[u8], at: usize) -> Option<Degrees>
    requires { at ≤ 1024 }
    ensures { result ≡ degrees_at b.now at }
{
    has_at(b, at).then_some(Degrees {
        latitude: f64_at(b, at + 1),
        longitude: f64_at(b, at + 9),
    })
}

#[tactic(auto, unfolding(crate::specs::Records::stop_in))]
pub fn stop_in(b: &[u8]) -> StopInput
    ensures { result ≡ stop_in b.now }
{
    let kind = type_at(b);
    StopInput {
        location_type: byte_at(b, kind),
        degrees: degrees_at(b, kind + 1),
        members: byte_at(b, members_at(b)),
    }
}

#[tactic(auto, unfolding(crate::specs::Records::seconds_at))]
fn seconds_at(b: &[u8], at: usize) -> Option<u32>
    requires { at ≤ 1024 }
    ensures { result ≡ seconds_at b.now at }
{
    has_at(b, at).then_some(u32_at(b, at + 1))
}

#[tactic(auto, unfolding(crate::specs::Records::call_in))]
pub fn call_in(b: &[u8]) -> CallInput
    ensures { result ≡ call_in b.now }
{
    let at = pickup_at(b);
    CallInput {
        trip: u16_at(b, 1),
        day: byte_at(b, 3),
        sequence: u32_at(b, 4),
        stop: u16_at(b, 8),
        arrival: seconds_at(b, 10),
        departure: seconds_at(b, departure_at(b)),
        pickup: byte_at(b, at),
        drop_off: byte_at(b, at + 1),
    }
}

#[tactic(auto, unfolding(crate::specs::Records::rule_in, crate::specs::Records::min_time_at))]
pub fn rule_in(b: &[u8]) -> Rule
    ensures { result ≡ rule_in b.now }
{
    Rule {
        from: u16_at(b, 1),
        to: u16_at(b, 3),
        transfer_type: byte_at(b, 5),
        seconds: has_at(b, 6).then_some(u16_at(b, 7)),
    }
}
