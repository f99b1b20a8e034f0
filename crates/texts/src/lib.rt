// Texts in fixed memory: the core has no heap.
#![tactic(auto)]

ghost use Rattle.std.specs.Prelude.{◌≡◌, []};
ghost use Rattle.texts.specs.Texts.{held, bytes_of};

use prefix::first;

// How many bytes an id has at most, a stop's or the name of a service.
pub const ID_BYTES: usize = 32;

// A text of at most N bytes, and at most 255, held with 0 past its length. An array with a length, since there is no heap. No invariant:
// functions take every text, also one that no step made.
#[derive(Clone, Copy, Debug, PartialEq, Eq)]
pub struct Text<const N: usize> {
    pub bytes: [u8; N],
    pub len: u8,
}

// The text of no bytes.
impl<const N: usize> Default for Text<N> {
    ghost is_default = { λ text. text ≡ held N [] };

    fn default() -> Self {
        Text::of(b"")
    }
}

impl<const N: usize> Text<N> {
    // A text that fits is held whole; of a longer one the first N bytes.
    #[tactic(auto, unfolding(crate::specs::Texts::held))]
    pub fn of(s: &[u8]) -> Self
        ensures { result ≡ held N s.now }
    {
        let mut bytes = [0u8; N];
        let n = s.len().min(N);
        bytes[..n].copy_from_slice(&s[..n]);
        Text {
            bytes,
            len: n.min(255) as u8,
        }
    }

    // The bytes of the text.
    pub fn bytes(&self) -> &[u8]
        ensures { result.now ≡ bytes_of self.now }
    {
        first(&self.bytes, usize::from(self.len))
    }
}
