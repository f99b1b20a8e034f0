// The records of a load: of each the kind, then the fields.
ghost use Rattle.std.specs.Prelude.{◌≡◌, ℕ, List, Some, option_map};
ghost use Rattle.stops.specs.declared.Stop.{Stop};
ghost use Rattle.stops.specs.Stops.{id_of, name_of};
ghost use Rattle.stops.specs.Sound.{stop_at};
ghost use Rattle.texts.specs.Texts.{bytes_of};
ghost use Rattle.buffer.specs.Put.{Put};
ghost use Rattle.codec.specs.Shapes.{two, four, eight, number, text, option, both, write};
ghost use Rattle.writer.specs.Options.{option_bytes};
ghost use Rattle.codec.specs.Kinds.{bits_of, degrees_value, settings_body, stop_body, rule_body, call_body};
ghost use Rattle.codec.specs.Parts.{at_start, parent_id_of, stop_input_of, type_of, call_input_of};

use buffer::Buffer;
use calls::Call;
use fields::kind::Kind;
use place::Degrees;
use prefix::first;
use rules::Rule;
use settings::Settings;
use stops::Stop;
use texts::{ID_BYTES, Text};

// What is a record of a load file. A stop names its station by the id that it has among the stops.
pub trait Record {
    ghost body: { List Stop → Self → List ℕ };

    fn put(&self, out: &mut Buffer<'_>, stops: &[Stop])
        ensures { Put 65535 (body stops.now self.now) out.old out.new };
}

// ---- fields that may be missing

// What may be missing in a record: at most 256 bytes.
trait Field {
    ghost bytes: { Self → List ℕ };

    fn put(&self, out: &mut Buffer<'_>)
        ensures { Put 256 (bytes self.now) out.old out.new };
}

// The field after the byte 1, or the byte 0.
fn put_option<T: Field>(out: &mut Buffer<'_>, field: &Option<T>)
    ensures { Put 257 (option_bytes T.bytes field.now) out.old out.new }
{
    match field {
        Some(there) => {
            out.byte(1);
            there.put(out);
        }
        None => out.byte(0),
    }
}

// A length byte, then as many bytes.
impl<const N: usize> Field for Text<N> {
    ghost bytes = { λ t. write text (bytes_of t) };

    fn put(&self, out: &mut Buffer<'_>) {
        let n = self.len;
        let bytes = first(&self.bytes, usize::from(n));
        out.byte(bytes.len() as u8);
        out.bytes(bytes);
    }
}

// A float's bits; the one NaN is 7ff8000000000000.
fn bits(x: f64) -> u64
    ensures { result ≡ bits_of x }
{
    if x.is_nan() {
        return 0x7ff8000000000000;
    }
    x.to_bits()
}

impl Field for Degrees {
    ghost bytes = { λ d. write (both (number eight) (number eight)) (degrees_value d) };

    fn put(&self, out: &mut Buffer<'_>) {
        out.u64(bits(self.latitude));
        out.u64(bits(self.longitude));
    }
}

// Seconds.
impl Field for u16 {
    ghost bytes = { λ n. write (number two) n };

    fn put(&self, out: &mut Buffer<'_>) {
        out.u16(*self);
    }
}

// ---- settings

impl Record for Settings {
    ghost body = { λ _ s. settings_body (at_start s) };

    fn put(&self, out: &mut Buffer<'_>, _stops: &[Stop]) {
        out.byte(Kind::Settings as u8);
        out.byte(self.origins);
        out.byte(self.targets);
        out.bytes(first(&self.origin_walks, usize::from(self.origins)));
        out.bytes(first(&self.target_walks, usize::from(self.targets)));
        out.u16(self.transfer_seconds);
        out.byte(self.max_transfers);
        let start = self.now.cast_unsigned();
        out.u64(start);
        // Held times count from the start, so it is each epoch too.
        let epoch = start;
        out.u64(epoch);
        out.u64(epoch);
        out.u64(epoch);
    }
}

// ---- stop

// The id of a stop, blank past the last.
#[tactic(auto, unfolding(stops::specs::Sound::stop_at))]
fn stop_id(stops: &[Stop], number: u16) -> Text<ID_BYTES>
    ensures { result ≡ (stop_at stops.now number).id }
{
    stops
        .get(usize::from(number))
        .map(|stop| stop.id)
        .unwrap_or_default()
}

fn station_id(stops: &[Stop], parent: Option<u16>) -> Option<Text<ID_BYTES>>
    ensures { result ≡ option_map (λ p. (stop_at stops.now p).id) parent }
{
    parent.map(|p| stop_id(stops, p))
}

impl Record for Stop {
    ghost body = { λ stops s. stop_body (id_of s) (name_of s) (parent_id_of stops s) (stop_input_of s) };

    fn put(&self, out: &mut Buffer<'_>, stops: &[Stop]) {
        out.byte(Kind::Stop as u8);
        self.id.put(out);
        put_option(out, &self.name);
        put_option(out, &station_id(stops, self.parent));
        out.byte(self.location_type);
        put_option(out, &self.degrees);
        out.byte(self.members);
    }
}

// ---- rule

impl Record for Rule {
    ghost body = { λ _ r. rule_body r };

    fn put(&self, out: &mut Buffer<'_>, _stops: &[Stop]) {
        out.byte(Kind::Rule as u8);
        out.u16(self.from);
        out.u16(self.to);
        out.byte(self.transfer_type);
        put_option(out, &self.seconds);
    }
}

// ---- call

// The file's number for it, put at once, and so no enum: 1 where boarding or alighting is barred, 2 where it is on request, else 0.
#[tactic(auto, unfolding(codec::specs::Parts::type_of))]
fn type_of(may: bool, asked: bool) -> u8
    ensures { result ≡ type_of may asked }
{
    match (may, asked) {
        (false, _) => 1,
        (true, false) => 0,
        (true, true) => 2,
    }
}

// A time that is there.
fn put_seconds(out: &mut Buffer<'_>, n: u16)
    ensures { Put 5 (write (option (number four)) (Some n)) out.old out.new }
{
    out.byte(1);
    out.u32(u32::from(n));
}

impl Record for Call {
    ghost body = { λ _ c. call_body (call_input_of c) };

    fn put(&self, out: &mut Buffer<'_>, _stops: &[Stop]) {
        out.byte(Kind::Call as u8);
        out.u16(self.trip);
        out.byte(self.day);
        out.u32(self.sequence);
        out.u16(self.stop);
        put_seconds(out, self.arrival);
        put_seconds(out, self.departure);
        out.byte(type_of(self.board, self.board_request));
        out.byte(type_of(self.alight, self.alight_request));
    }
}
