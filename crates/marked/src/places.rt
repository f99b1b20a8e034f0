// The scope's marked places: pairs of positions at the edge of the place test, microdegrees, and a place key of each kind.
use crate::show::yes;
use place::{Degrees, PlaceKey};

// The key of a name at a position.
fn named_at(lat: i32, lon: i32) -> PlaceKey {
    PlaceKey {
        tag: b'N',
        hash: 7,
        lat,
        lon,
    }
}

// Whether two positions of one name, latitude first, are one place.
fn same(rt: &impl Print, label: &str, a: (i32, i32), b: (i32, i32)) {
    let same = place::same_place_keys(named_at(a.0, a.1), named_at(b.0, b.1));
    let _ = println!(rt; "same place \"{label}\" {}", yes(same));
}

fn at(latitude: f64, longitude: f64) -> Option<Degrees> {
    Some(Degrees {
        latitude,
        longitude,
    })
}

// Whether the latitude, at longitude 0, is so many microdegrees.
fn micro(rt: &impl Print, label: &str, latitude: f64, lat: i32) {
    let answer = match place::coordinates(at(latitude, 0.0)) {
        Some(micro) => yes(micro.lat == lat),
        None => "nowhere",
    };
    let _ = println!(rt; "micro \"{label}\" {answer}");
}

// The key of the stop "U1 Mitte" with the parent "S", or of the same without a parent.
fn key(rt: &impl Print, label: &str, parent: bool, position: Option<Degrees>, named: bool) {
    let parent: Option<&[u8]> = if parent { Some(b"S") } else { None };
    let name: Option<&[u8]> = if named { Some(b"Stadt  Mitte") } else { None };
    let key = place::place_key(parent, position, name, b"U1 Mitte");
    let _ = println!(rt;
        "place key \"{label}\" {} {:016x}",
        char::from(key.tag),
        key.hash
    );
}

fn edges(rt: &impl Print) {
    same(rt, "latitudes 0 and 1124", (0, 0), (1124, 0));
    same(rt, "latitudes 0 and 1125", (0, 0), (1125, 0));
    same(
        rt,
        "longitudes 179999500 and -179999500",
        (0, 179999500),
        (0, -179999500),
    );
    same(rt, "longitudes 0 and 1124", (0, 0), (0, 1124));
    same(rt, "longitudes 0 and 1125", (0, 0), (0, 1125));
    same(
        rt,
        "latitude 60, longitudes 0 and 2248",
        (60000000, 0),
        (60000000, 2248),
    );
    same(
        rt,
        "latitude 60, longitudes 0 and 2249",
        (60000000, 0),
        (60000000, 2249),
    )
}

fn degrees(rt: &impl Print) {
    micro(rt, "-0.0000019 is -1", -0.0000019, -1);
    micro(rt, "90 is 90000000", 90.0, 90000000);
    micro(rt, "-90.00000000000001", -90.00000000000001, 0);
    micro(rt, "-0.0 is 0", -0.0, 0)
}

fn keys(rt: &impl Print) {
    let here = at(52.5, 13.4);
    key(rt, "parent", true, here, true);
    key(rt, "name at a position", false, here, true);
    key(rt, "no name", false, here, false);
    key(rt, "no position", false, None, true);
    key(rt, "not usable", false, at(91.0, 13.4), true)
}

pub fn run(rt: &impl Print) {
    edges(rt);
    degrees(rt);
    keys(rt)
}
