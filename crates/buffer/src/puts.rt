// What is put into a buffer.
ghost use Rattle.std.specs.Prelude.{◌≡◌, [], ◌∷◌, length};
ghost use Rattle.buffer.specs.Put.{Put};
ghost use Rattle.buffer.specs.Bytes.{two_bytes, four_bytes, eight_bytes};

use crate::Buffer;

impl<'a> Buffer<'a> {
    pub fn new(out: &'a mut [u8]) -> Buffer<'a>
        ensures same { result.out.ghost_name ≡ out.entry.ghost_name }
        ensures bytes { result.out.now ≡ out.old }
        ensures empty { result.len ≡ 0 }
    {
        Buffer { out, len: 0 }
    }

    pub fn byte(&mut self, byte: u8)
        ensures { Put 1 (byte ∷ []) self.old self.new }
    {
        let at = self.len;
        if at < self.out.len() {
            self.out[at] = byte;
        }
        self.len = at.saturating_add(1);
    }

    pub fn bytes(&mut self, bytes: &[u8])
        ensures { Put (length bytes.now) bytes.now self.old self.new }
    {
        for byte in bytes {
            self.byte(*byte);
        }
    }

    // Big-endian.
    pub fn u16(&mut self, n: u16)
        ensures { Put 2 (two_bytes n) self.old self.new }
    {
        self.bytes(&u16::to_be_bytes(n));
    }

    pub fn u32(&mut self, n: u32)
        ensures { Put 4 (four_bytes n) self.old self.new }
    {
        self.bytes(&u32::to_be_bytes(n));
    }

    pub fn u64(&mut self, n: u64)
        ensures { Put 8 (eight_bytes n) self.old self.new }
    {
        self.bytes(&u64::to_be_bytes(n));
    }
}
