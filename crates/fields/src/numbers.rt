// Big-endian numbers of a record. A byte past the record's end reads as 0.
// A number is read only near a record's start, so the places of its bytes fit. The bytes and a place stay two parameters, as in `layout`.
ghost use Rattle.std.specs.Prelude.{◌≡◌, ◌+◌, ◌≤◌};
ghost use Rattle.std.specs.Float.{binary64};
ghost use Rattle.std.specs.Float.Ieee.{nan_bits};
ghost use Rattle.fields.specs.Numbers.{byte_at, bytes_at, u16_at, u32_at, u64_at, i64_at, f64_at};

use std::array;

pub fn byte_at(b: &[u8], at: usize) -> u8
    ensures { result ≡ byte_at b.now at }
{
    b.get(at).copied().unwrap_or(0)
}

// So many bytes from a place on.
pub fn bytes_at<const N: usize>(b: &[u8], at: usize) -> [u8; N]
    requires { at + N ≤ 4098 }
    ensures { result ≡ bytes_at N b.now at }
{
    array::from_fn(|i| byte_at(b, at + i))
}

#[tactic(auto, unfolding(crate::specs::Numbers::bytes_at, laws::specs::Tables::table, crate::specs::Numbers::u16_at))]
pub fn u16_at(b: &[u8], at: usize) -> u16
    requires { at ≤ 4096 }
    ensures { result ≡ u16_at b.now at }
{
    u16::from_be_bytes(bytes_at(b, at))
}

#[tactic(auto, unfolding(crate::specs::Numbers::bytes_at, laws::specs::Tables::table, crate::specs::Numbers::u16_at, crate::specs::Numbers::u32_at))]
pub fn u32_at(b: &[u8], at: usize) -> u32
    requires { at ≤ 4094 }
    ensures { result ≡ u32_at b.now at }
{
    u32::from_be_bytes(bytes_at(b, at))
}

#[tactic(auto, unfolding(crate::specs::Numbers::bytes_at, laws::specs::Tables::table, crate::specs::Numbers::u16_at, crate::specs::Numbers::u32_at, crate::specs::Numbers::u64_at))]
pub fn u64_at(b: &[u8], at: usize) -> u64
    requires { at ≤ 4090 }
    ensures { result ≡ u64_at b.now at }
{
    u64::from_be_bytes(bytes_at(b, at))
}

// Two's complement.
#[tactic(auto, unfolding(crate::specs::Numbers::signed_of))]
pub fn i64_at(b: &[u8], at: usize) -> i64
    requires { at ≤ 4090 }
    ensures { result ≡ i64_at b.now at }
{
    u64_at(b, at).cast_signed()
}

// Whether the bits are a pattern of a NaN: the exponent's digits all set, and one of the fraction's.
fn is_nan(bits: u64) -> bool
    ensures { result ≡ nan_bits binary64 bits }
{
    9218868437227405312 < bits % 9223372036854775808
}

// The float of a pattern; the one NaN for each of its patterns.
pub fn f64_at(b: &[u8], at: usize) -> f64
    requires { at ≤ 4090 }
    ensures { result ≡ f64_at b.now at }
{
    let bits = u64_at(b, at);
    if is_nan(bits) {
        f64::NAN
    } else {
        f64::from_bits(bits)
    }
}
