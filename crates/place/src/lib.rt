// Places: the position of a stop, its place key, and whether two keys match (RULES 7).
#![tactic(auto)]

ghost use Rattle.std.specs.Prelude.{◌≡◌, ◌&&◌, Some, is_some, option_copied};
ghost use Rattle.std.specs.Float.{binary64};
ghost use Rattle.std.specs.Float.Ieee.{neg, le, of_int};
ghost use Rattle.place.specs.Positions.{usable_degrees, is_usable, micro, micro_of};
ghost use Rattle.place.specs.Keys.{no_place, parent_key, id_key, text_of, place_key};
ghost use Rattle.place.specs.Near.{close_by, turn, series, metres, same_keys};

// The two floats of a stop's record, in degrees.
#[derive(Clone, Copy, Debug, PartialEq)]
pub struct Degrees {
    pub latitude: f64,
    pub longitude: f64,
}

// A position in whole microdegrees.
#[derive(Clone, Copy, Debug, PartialEq, Eq)]
pub struct Micro {
    pub lat: i32,
    pub lon: i32,
}

// The key of a stop's place. The tag says what the hash is of: 80, P, the parent's id; 78, N, the name
// at a position; 73, I, the stop's own id. 0 is no place.
// A number, and no enum: C hands in any tag, and the test of two keys is promised for each.
#[derive(Clone, Copy, Debug, Default, PartialEq, Eq)]
pub struct PlaceKey {
    pub tag: u8,
    pub hash: u64,
    pub lat: i32,
    pub lon: i32,
}

fn in_reach(x: f64, top: f64) -> bool
    ensures { result ≡ le (neg top) x && le x top }
{
    -top <= x && x <= top
}

// Rust's `(x * 1_000_000.0) as i32`.
#[tactic(auto, unfolding(crate::specs::Positions::micro))]
fn micro_of(x: f64) -> i32
    ensures { result ≡ micro x }
{
    std::num::saturating_f64_to_i32(x * 1_000_000.0)
}

impl Degrees {
    fn is_usable(self) -> bool
        ensures { result ≡ usable_degrees self.latitude self.longitude }
    {
        in_reach(self.latitude, 90.0) && in_reach(self.longitude, 180.0)
    }

    #[tactic(auto, unfolding(crate::specs::Positions::micro_of))]
    fn microdegrees(self) -> Option<Micro>
        ensures { result ≡ micro_of (Some self) }
    {
        if !self.is_usable() {
            return None;
        }
        let lat = micro_of(self.latitude);
        let lon = micro_of(self.longitude);
        Some(Micro { lat, lon })
    }
}

// Whether a position is given and usable.
pub fn usable(p: Option<Degrees>) -> bool
    ensures { result ≡ is_usable p }
{
    p.is_some_and(|degrees| degrees.is_usable())
}

// The microdegrees of a usable position.
#[tactic(auto, unfolding(crate::specs::Positions::micro_of))]
pub fn coordinates(p: Option<Degrees>) -> Option<Micro>
    ensures { result ≡ micro_of p }
{
    p?.microdegrees()
}

// The key of a stop that has no place: the default, by a name that contracts can give it.
pub fn no_place() -> PlaceKey
    ensures { result ≡ no_place }
{
    PlaceKey::default()
}

// The key of a stop with a parent: the hash of the parent's id.
#[tactic(auto, unfolding(crate::specs::Keys::parent_key))]
fn parent_key(parent: &[u8]) -> PlaceKey
    ensures { result ≡ parent_key parent.now }
{
    PlaceKey {
        tag: b'P',
        hash: key::key(parent),
        lat: 0,
        lon: 0,
    }
}

// The key of a stop with neither a parent nor a usable position: the hash of its id.
#[tactic(auto, unfolding(crate::specs::Keys::id_key))]
fn id_key(id: &[u8]) -> PlaceKey
    ensures { result ≡ id_key id.now }
{
    PlaceKey {
        tag: b'I',
        hash: key::key(id),
        lat: 0,
        lon: 0,
    }
}

// The place key of a stop of type 0. The name is the id, folded as a name, where there is none. Texts and position come one by one: a
// record of them would be made for this call and taken apart in it.
pub fn place_key(
    parent: Option<&[u8]>,
    position: Option<Degrees>,
    name: Option<&[u8]>,
    id: &[u8],
) -> PlaceKey
    ensures { result ≡ place_key (is_some parent.entry) (text_of (option_copied parent.entry)) position
        (is_some name.entry) (text_of (option_copied name.entry)) id.now }
{
    if let Some(parent) = parent {
        return parent_key(parent);
    }
    if let Some(at) = coordinates(position)
        && let Ok(hash) = key::name_key(name.unwrap_or(id))
    {
        return PlaceKey {
            tag: b'N',
            hash,
            lat: at.lat,
            lon: at.lon,
        };
    }
    id_key(id)
}

// The shorter way round between two longitudes, in microdegrees.
#[tactic(auto, unfolding(crate::specs::Near::turn, crate::specs::Near::around))]
fn turn_of(a: i32, b: i32) -> i64
    ensures { result ≡ turn a b }
{
    let delta = i64::from(a.abs_diff(b));
    if delta > 180_000_000 {
        360_000_000 - delta
    } else {
        delta
    }
}

// The cosine of an angle with the square x2, by six terms of its series.
#[tactic(auto, unfolding(crate::specs::Near::series))]
fn series(x2: f64) -> f64
    ensures { result ≡ series x2 }
{
    1.0 + x2
        * (-0.5 + x2 * (1.0 / 24.0 + x2 * (-1.0 / 720.0 + x2 * (1.0 / 40320.0 - x2 / 3628800.0))))
}

#[tactic(auto, unfolding(crate::specs::Near::metres))]
fn metres(microdegrees: i64) -> f64
    ensures { result ≡ metres (of_int binary64 microdegrees) }
{
    std::num::nearest_i64_to_f64(microdegrees) * (111195.0 / 1_000_000.0)
}

fn close_by(a: Micro, b: Micro) -> bool
    ensures { result ≡ close_by a.lat a.lon b.lat b.lon }
{
    let sum = i64::from(a.lat) + i64::from(b.lat);
    let gap = i64::from(a.lat) - i64::from(b.lat);
    let radians = std::num::nearest_i64_to_f64(sum) * 3.141592653589793 / 360_000_000.0;
    let dx = metres(turn_of(a.lon, b.lon)) * series(radians * radians);
    let dy = metres(gap);
    dx * dx + dy * dy <= 125.0 * 125.0
}

impl PlaceKey {
    fn micro(self) -> Micro
        ensures { result ≡ record { lat = self.lat; lon = self.lon } }
    {
        Micro {
            lat: self.lat,
            lon: self.lon,
        }
    }
}

// Whether two place keys are one place. Not the derived equality: of two names at positions it is asked how far apart these are.
#[tactic(auto, unfolding(crate::specs::Near::same_keys))]
pub fn same_place_keys(a: PlaceKey, b: PlaceKey) -> bool
    ensures { result ≡ same_keys a b }
{
    a.tag == b.tag && a.hash == b.hash && (a.tag != b'N' || close_by(a.micro(), b.micro()))
}
