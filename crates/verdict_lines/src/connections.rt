// Connections as bytes: origin, target, how many rides count, then three rides of 11 bytes each: trip u16, day u8, the sequences where it
// boards and alights, u32 each. Numbers are big-endian; the bytes of a ride that doesn't count are not read by the verdict.
ghost use Rattle.std.specs.Prelude.{◌≡◌};
ghost use Rattle.verdict_lines.specs.Bytes.{leg_of, connection_of};

use connection::{Connection, Leg};

#[tactic(auto, unfolding(crate::specs::Bytes::leg_of, fields::specs::Numbers::u16_at, fields::specs::Numbers::u32_at))]
fn leg_of(b: &[u8; 11]) -> Leg
    ensures { result ≡ leg_of b.now }
{
    Leg {
        trip: u16::from_be_bytes([b[0], b[1]]),
        day: b[2],
        board: u32::from_be_bytes([b[3], b[4], b[5], b[6]]),
        alight: u32::from_be_bytes([b[7], b[8], b[9], b[10]]),
    }
}

pub fn connection_of(b: &[u8; 36]) -> Connection
    ensures { result ≡ connection_of b.now }
{
    let (legs, _) = b[3..].as_chunks::<11>();
    Connection {
        origin: b[0],
        target: b[1],
        rides: b[2],
        legs: [leg_of(&legs[0]), leg_of(&legs[1]), leg_of(&legs[2])],
    }
}
