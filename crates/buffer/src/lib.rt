// Bytes put one after the other into a lent buffer. A byte past its end is left out but counted, so no function asks that there be room,
// and a buffer without room tells how long a text is.
#![tactic(auto)]

ghost use Rattle.std.specs.Prelude.{◌≤◌, length};

mod puts;

// Into `out`, `len` bytes were put. A slice is no longer than an isize counts. No `==`: the library has none for a `&mut [u8]`.
#[derive(Debug, Drop)]
pub struct Buffer<'a> {
    pub out: &'a mut [u8],
    pub len: usize,
    ghost room: { length out.now ≤ 9223372036854775807 },
    ghost count: { len ≤ 18446744073709551615 },
}
