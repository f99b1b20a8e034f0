// A number as its decimal digits.
ghost use Rattle.buffer.specs.Put.{Put};
ghost use Rattle.lines.specs.Decimal.{decimal, spaced};

use buffer::Buffer;

// A number's decimal digits. By hand: no clause says that a `write!` into the buffer can't fail, and at an error nothing is known of it;
// and by the kit's itoa, which is as fast, the lines would rest on its contract besides, which is trusted here and not proved. Two digits a
// step: one a step was slower.
fn decimal(out: &mut Buffer<'_>, n: u64)
    ensures { Put 20 (decimal n) out.old out.new }
{
    if n < 10 {
        return out.byte(b'0' + n as u8);
    }
    if 100 <= n {
        decimal(out, n / 100);
    }
    out.byte(b'0' + (n / 10 % 10) as u8);
    out.byte(b'0' + (n % 10) as u8);
}

// A number behind a space.
pub fn number(out: &mut Buffer<'_>, n: u64)
    ensures { Put 21 (spaced n) out.old out.new }
{
    out.byte(b' ');
    decimal(out, n);
}
