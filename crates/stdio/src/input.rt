// A batch on standard input: files, each after its length as a big-endian u32. All is read into one buffer. A read that fails is an error,
// and not the end.
ghost use Rattle.std.specs.Prelude.{◌≡◌, ◌<◌, ◌≤◌, IfOk, IfSome, length, take};
ghost use Rattle.std.specs.Io.KnownBytes.{Consumes, IsAtEnd};
ghost use Rattle.stdio.specs.Input.{zeros};

use std::io;
use std::io::{Read, Stdin};

// A buffer for input. A function of its own: the proof of a `main` can't hold an array of a million bytes.
#[tactic(auto, unfolding(crate::specs::Input::zeros))]
pub fn zeros<const N: usize>() -> [u8; N]
    ensures { result ≡ zeros N }
{
    [0; N]
}

// A read failed.
#[derive(Clone, Copy, Debug, PartialEq, Eq)]
pub struct Unread;

impl From<io::Error> for Unread {
    fn from(_e: io::Error) -> Unread {
        Unread
    }
}

// Reads until the buffer is full or the input ends; how many bytes were put at its start. A count and not the part, so that the buffer is
// there again for what is read behind it. std's read_exact doesn't say how many. Where the reader's bytes are known they are its next ones,
// and fewer than there is room for at the end alone.
pub fn full<R: Read>(from: &mut R, buf: &mut [u8]) -> Result<usize, Unread>
    ensures within { IfOk result (λ n. n ≤ length buf.new) }
    ensures bytes { IfOk result (λ n. Consumes (R.remaining from.old) (R.remaining from.new) (take n buf.new)) }
    ensures end { IfOk result (λ n. n < length buf.new → IsAtEnd (R.remaining from.new)) }
{
    let mut done = 0;
    while done < buf.len() {
        match from.read(&mut buf[done..])? {
            0 => break,
            n => done += n,
        }
    }
    Ok(done)
}

// The next four bytes of the input, put at the start of the buffer; how many of them there are. None are read into a shorter buffer.
// No more than four, which is told for whoever reads on behind them.
pub fn head(stdin: Stdin, buf: &mut [u8]) -> Result<usize, Unread>
    ensures { IfOk result (λ n. n ≤ 4) }
{
    match buf.first_chunk_mut::<4>() {
        Some(first) => full(&mut &stdin, first),
        None => Ok(0),
    }
}

// The number that the four bytes at the start of the buffer are.
fn size(buf: &[u8]) -> usize
    ensures { result < 4294967296 }
{
    buf.first_chunk()
        .map_or(0, |b| u32::from_be_bytes(*b) as usize)
}

// The file whose length stands at the start of the buffer, put in its place. None of a file that is longer than the buffer, or is not
// there whole.
pub fn body<'a>(stdin: Stdin, buf: &'a mut [u8]) -> Result<Option<&'a [u8]>, Unread>
    ensures within { IfOk result (λ found. IfSome found (λ file. length file.now ≤ length buf.old)) }
    ensures sized { IfOk result (λ found. IfSome found (λ file. length file.now < 4294967296)) }
{
    let n = size(buf);
    if buf.len() < n || full(&mut &stdin, &mut buf[..n])? < n {
        return Ok(None);
    }
    Ok(Some(&buf[..n]))
}

// The next file, put at the start of the buffer, if its length and the file are there.
pub fn file<'a>(stdin: Stdin, buf: &'a mut [u8]) -> Result<Option<&'a [u8]>, Unread>
    ensures within { IfOk result (λ found. IfSome found (λ file. length file.now ≤ length buf.old)) }
    ensures sized { IfOk result (λ found. IfSome found (λ file. length file.now < 4294967296)) }
{
    if head(stdin, buf)? < 4 {
        return Ok(None);
    }
    body(stdin, buf)
}

// Hands on each file of the batch, up to one that is longer than the buffer or is not there whole. The input's end ends the loop; its
// range bounds it, as each loop needs a bound.
pub fn each_file<F: FnMut(&[u8])>(stdin: Stdin, buf: &mut [u8], mut each: F) -> Result<(), Unread>
    requires { F.IsAlwaysCallable each }
    ensures { length buf.new ≡ length buf.old }
{
    for _ in 0..u64::MAX {
        let Some(file) = file(stdin, buf)? else {
            break;
        };
        each(file);
    }
    Ok(())
}

// What the buffer holds once the rest of the input is read after its first `held` bytes, which stay. Bytes that don't fit are not read.
pub fn rest<'a>(stdin: Stdin, buf: &'a mut [u8], held: usize) -> Result<&'a [u8], Unread>
    ensures { IfOk result (λ read. length read.now ≤ length buf.old) }
{
    if held < buf.len() {
        let n = full(&mut &stdin, &mut buf[held..])?;
        return Ok(&buf[..held + n]);
    }
    Ok(buf)
}
