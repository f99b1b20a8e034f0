// A record stands in a file after its length of two bytes.
ghost use Rattle.std.specs.Prelude.{◌≡◌, option_copied, length};
ghost use Rattle.file.specs.File.{whole_of};

use fields::layout::length_of;

// The record at the start of the bytes, if it is there whole.
pub fn whole(bytes: &[u8]) -> Option<&[u8]>
    ensures { option_copied result ≡ whole_of bytes.now }
{
    bytes.get(2..2 + usize::from(length_of(bytes)))
}

// The whole records at the start of the bytes, one after the other, each without its length.
#[derive(Clone, Copy, Debug, PartialEq, Eq, Drop)]
pub struct Records<'a> {
    pub rest: &'a [u8],
}

impl<'a> Iterator for Records<'a> {
    ghost use Rattle.std.specs.Iterator.{YieldsFirstRef, at_most};
    ghost use Rattle.file.specs.Framed.{records_left};

    type Item = &'a [u8];

    ghost next_gives = { YieldsFirstRef records_left };

    ghost remaining = { λ s. at_most (length s.rest.now) };

    fn next(&mut self) -> Option<&'a [u8]> {
        let b = whole(self.rest)?;
        self.rest = &self.rest[2 + b.len()..];
        Some(b)
    }
}
