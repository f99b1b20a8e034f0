// The place test and the microdegrees over plain numbers, for programs in C and Rust to call.
#![tactic(auto)]

ghost use Rattle.std.specs.Prelude.{◌≡◌};
ghost use Rattle.place.specs.Near.{same_keys};
ghost use Rattle.place.specs.Positions.{is_usable, micro_of};
ghost use Rattle.place_c.specs.Plain.{key_with, position_with, lat_of, lon_of};

use place::{Degrees, PlaceKey};

// The kind is a number, as C gives it.
fn key_with(tag: u8, hash: u64, lat: i32, lon: i32) -> PlaceKey
    ensures { result ≡ key_with tag hash lat lon }
{
    PlaceKey {
        tag,
        hash,
        lat,
        lon,
    }
}

// Whether two keys are one place.
#[unsafe(no_mangle)]
pub extern "C" fn place_same(
    atag: u8,
    ahash: u64,
    alat: i32,
    alon: i32,
    btag: u8,
    bhash: u64,
    blat: i32,
    blon: i32,
) -> bool
    ensures { result ≡ same_keys (key_with atag ahash alat alon) (key_with btag bhash blat blon) }
{
    place::same_place_keys(
        key_with(atag, ahash, alat, alon),
        key_with(btag, bhash, blat, blon),
    )
}

// C has no options: each of its functions takes a flag and two floats, which are made an option here.
fn position_with(located: bool, latitude: f64, longitude: f64) -> Option<Degrees>
    ensures { result ≡ position_with located latitude longitude }
{
    located.then_some(Degrees {
        latitude,
        longitude,
    })
}

// Whether a position is given and usable.
#[unsafe(no_mangle)]
pub extern "C" fn place_usable(located: bool, latitude: f64, longitude: f64) -> bool
    ensures { result ≡ is_usable (position_with located latitude longitude) }
{
    place::usable(position_with(located, latitude, longitude))
}

// The latitude in microdegrees; 0, as C has no options, where the position is not usable.
#[unsafe(no_mangle)]
pub extern "C" fn place_latitude(located: bool, latitude: f64, longitude: f64) -> i32
    ensures { result ≡ lat_of (micro_of (position_with located latitude longitude)) }
{
    place::coordinates(position_with(located, latitude, longitude)).map_or(0, |micro| micro.lat)
}

// The longitude in microdegrees; 0, as C has no options, where the position is not usable.
#[unsafe(no_mangle)]
pub extern "C" fn place_longitude(located: bool, latitude: f64, longitude: f64) -> i32
    ensures { result ≡ lon_of (micro_of (position_with located latitude longitude)) }
{
    place::coordinates(position_with(located, latitude, longitude)).map_or(0, |micro| micro.lon)
}
