// Short numbers as text, and the lines that have no journey.
ghost use Rattle.std.specs.Prelude.{[], ◌∷◌, ◌++◌, ◌+◌, ◌*◌, length};
ghost use Rattle.laws.specs.Lists.{concat_map};
ghost use Rattle.buffer.specs.Put.{Put};
ghost use Rattle.lines.specs.Decimal.{spaced};
ghost use Rattle.lines.specs.Lines.{horizon_line_of, refused_line_of};
ghost use Rattle.lines.specs.Rides.{searched_line};

use crate::digits::number;
use buffer::Buffer;

// A short number behind a space: five digits at most.
fn short(out: &mut Buffer<'_>, n: u16)
    ensures { Put 6 (spaced n) out.old out.new }
{
    number(out, u64::from(n));
}

// Each number behind a space.
pub fn numbers(out: &mut Buffer<'_>, ns: &[u16])
    ensures { Put (6 * length ns.now) (concat_map spaced ns.now) out.old out.new }
{
    for n in ns {
        short(out, *n);
    }
}

pub fn horizon_line(out: &mut Buffer<'_>, horizon: u16, limits: u8)
    ensures { Put 27 (horizon_line_of horizon limits) out.old out.new }
{
    out.bytes(b"horizon");
    numbers(out, &[horizon]);
    out.bytes(b" limits");
    numbers(out, &[u16::from(limits)]);
    out.byte(b'\n');
}

// A word, a number and the line's end.
fn line(out: &mut Buffer<'_>, word: &[u8], number: u16)
    ensures { Put (length word.now + 7) (word.now ++ (spaced number ++ (10 ∷ []))) out.old out.new }
{
    out.bytes(word);
    numbers(out, &[number]);
    out.byte(b'\n');
}

pub fn searched_line(out: &mut Buffer<'_>, searched: bool)
    ensures { Put 15 (searched_line searched) out.old out.new }
{
    line(out, b"searched", u16::from(searched));
}

pub fn refused_line(out: &mut Buffer<'_>, number: u8)
    ensures { Put 14 (refused_line_of number) out.old out.new }
{
    line(out, b"refused", u16::from(number));
}
