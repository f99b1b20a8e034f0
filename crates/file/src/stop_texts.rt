// The stop that its record hands in, its three texts parts of the bytes. The bytes and a place stay two parameters, as in `fields`.
ghost use Rattle.std.specs.Prelude.{◌≡◌, ◌-◌, ◌≤◌, take, drop, option_copied};
ghost use Rattle.fields.specs.Layout.{text_at, option_text_end, option_text_at, name_at, parent_at};
ghost use Rattle.fields.specs.Records.{stop_in};

use fields::layout::{has_at, name_at, parent_at, type_at};
use fields::records::stop_in;
use stops::NewStop;

// What the bytes hold of a part; a record that is not filled may end before the part does.
fn part(b: &[u8], from: usize, end: usize) -> &[u8]
    ensures { result.now ≡ take (end - from) (drop from b.now) }
{
    let to = end.min(b.len());
    &b[from.min(to)..to]
}

fn id_text(b: &[u8]) -> &[u8]
    ensures { result.now ≡ text_at b.now 1 }
{
    part(b, 2, name_at(b))
}

// An optional text at a place, after its byte and its length; it ends where the next field begins. The bound of
// the place is asked for as in `fields`.
fn option_text(b: &[u8], at: usize, end: usize) -> Option<&[u8]>
    requires { (at ≤ 2048) × (end ≡ option_text_end b.now at) }
    ensures { option_copied result ≡ option_text_at b.now at }
{
    has_at(b, at).then_some(part(b, at + 2, end))
}

fn name_text(b: &[u8]) -> Option<&[u8]>
    ensures { option_copied result ≡ option_text_at b.now (name_at b.now) }
{
    option_text(b, name_at(b), parent_at(b))
}

fn parent_text(b: &[u8]) -> Option<&[u8]>
    ensures { option_copied result ≡ option_text_at b.now (parent_at b.now) }
{
    option_text(b, parent_at(b), type_at(b))
}

pub fn new_stop(b: &[u8]) -> NewStop<'_>
    ensures id { result.id.now ≡ text_at b.now 1 }
    ensures name { option_copied result.name ≡ option_text_at b.now (name_at b.now) }
    ensures parent { option_copied result.parent ≡ option_text_at b.now (parent_at b.now) }
    ensures input { result.input ≡ stop_in b.now }
{
    NewStop {
        id: id_text(b),
        name: name_text(b),
        parent: parent_text(b),
        input: stop_in(b),
    }
}
