// The whole file of a load, and how long it is.
ghost use Rattle.std.specs.Prelude.{◌≡◌, ◌*◌, ◌≤◌, ◌++◌, length, drop};
ghost use Rattle.std.proofs.lemmas.List.Edits.{sets};
ghost use Rattle.laws.specs.Lists.{concat_map};
ghost use Rattle.buffer.specs.Put.{Put};
ghost use Rattle.codec.specs.Shapes.{framed};
ghost use Rattle.writer.specs.File.{write_spec_of};

use crate::records::Record;
use buffer::Buffer;
use fields::kind::Kind;
use load::Load;
use prefix::first;
use stops::Stop;

// A record behind the two bytes of its length, which are put once it is known.
fn put_record<R: Record>(out: &mut Buffer<'_>, item: &R, stops: &[Stop])
    ensures { Put 65537 (framed (R.body stops.now item.now)) out.old out.new }
{
    let start = out.len;
    let from = start.saturating_add(2);
    out.len = from;
    item.put(out, stops);
    let end = out.len;
    out.len = start;
    out.u16((end - from) as u16);
    out.len = end;
}

fn put_records<R: Record>(out: &mut Buffer<'_>, items: &[R], stops: &[Stop])
    ensures { Put (65537 * length items.now) (concat_map (λ r. framed (R.body stops.now r)) items.now) out.old out.new }
{
    for item in items {
        put_record(out, item, stops);
    }
}

fn put_parts(out: &mut Buffer<'_>, load: &Load)
    ensures { Put 50397957 (write_spec_of load.now) out.old out.new }
{
    let stops = &load.stops;
    out.byte(2);
    put_record(out, &load.settings, stops);
    put_records(out, first(stops, load.stop_count), stops);
    put_records(out, first(&load.rules, load.rule_count), stops);
    put_records(out, first(&load.calls, load.call_count), stops);
    if load.searched {
        out.bytes(&[0, 1, Kind::Search as u8]);
    }
}

// How long the file is; if it has room, it stands at the start of the buffer, and else as much of it as has.
pub fn put_file(out: &mut [u8], load: &Load) -> usize
    ensures size { result ≡ length (write_spec_of load.now) }
    ensures out_after { length (write_spec_of load.now) ≤ length out.old
        → out.new ≡ write_spec_of load.now ++ drop (length (write_spec_of load.now)) out.old }
    ensures short { out.new ≡ sets out.old 0 (write_spec_of load.now) }
{
    let mut file = Buffer::new(out);
    put_parts(&mut file, load);
    file.len
}
