// What a load says of connections, as bytes in a lent buffer: of each connection, which is 36 bytes, a line.
#![tactic(auto)]

ghost use Rattle.std.specs.Prelude.{◌≡◌, ◌≤◌, ◌*◌, ◌/◌, length, take, min};
ghost use Rattle.std.proofs.lemmas.List.Edits.{sets};
ghost use Rattle.buffer.specs.Put.{Put};
ghost use Rattle.verdict_lines.specs.Lines.{connection_line, verdict_lines};

use crate::connections::connection_of;
use crate::words::verdict_line;
use buffer::Buffer;
use load::Load;
use verdict::verdict;

mod connections;
mod words;

fn connection_line(out: &mut Buffer<'_>, load: &Load, b: &[u8; 36])
    ensures { Put 101 (connection_line load.now b.now) out.old out.new }
{
    verdict_line(out, verdict(load, &connection_of(b)));
}

fn put_lines(out: &mut Buffer<'_>, load: &Load, b: &[u8])
    ensures { Put (101 * (length b.now / 36)) (verdict_lines load.now b.now) out.old out.new }
{
    let (connections, _) = b.as_chunks::<36>();
    for connection in connections {
        connection_line(out, load, connection);
    }
}

// Puts the lines at the start of the buffer, as far as it has room, and answers how many bytes they are. Bytes at the end that are fewer
// than a connection's are left out.
pub fn verdict_lines(out: &mut [u8], load: &Load, connections: &[u8]) -> usize
    ensures out_after { result ≤ length out.new → take result out.new ≡ verdict_lines load.now connections.now }
    ensures short { out.new ≡ sets out.old 0 (verdict_lines load.now connections.now) }
    ensures counted { result ≡ min (length (verdict_lines load.now connections.now)) 18446744073709551615 }
    ensures most { result ≤ 101 * (length connections.now / 36) }
{
    let mut text = Buffer::new(out);
    put_lines(&mut text, load, connections);
    text.len
}
