// One record, tested and taken.
ghost use Rattle.std.specs.Prelude.{◌≡◌};
ghost use Rattle.fields.specs.Kind.{number_of};
ghost use Rattle.load.specs.Steps.{stepped, unless_refused};
ghost use Rattle.file.specs.Record.{kind_right, took, record_spec};
ghost use Rattle.file.specs.Kinds.{filled_as, tested, closed_reader, stepped_as};

use crate::stop_texts::new_stop;
use crate::{Reader, RecordResult};
use again::take_added;
use fields::kind::Kind;
use fields::layout::{
    call_filled, kind_of, rule_filled, search_filled, settings_filled_by, stop_filled,
};
use fields::records::{call_in, rule_in, settings_by};
use load::Load;
use refusal::{Answer, Refusal, is_refused};
use search::take_search;

// Settings come first and only first.
#[tactic(auto, unfolding(crate::specs::Record::kind_right))]
fn kind_right(opened: bool, kind: Kind) -> bool
    ensures { result ≡ kind_right opened (number_of kind) }
{
    if opened {
        kind != Kind::Settings
    } else {
        kind == Kind::Settings
    }
}

// A match, since each kind has a test of its own fields.
fn is_filled(kind: Kind, second: bool, b: &[u8]) -> bool
    ensures { result ≡ filled_as kind second b.now }
{
    match kind {
        Kind::Settings => settings_filled_by(second, b),
        Kind::Stop => stop_filled(b),
        Kind::Call => call_filled(b),
        Kind::Rule => rule_filled(b),
        Kind::Search => search_filled(b),
    }
}

// Its kind, or why a record is turned away before it is handed to the load: 18, 19, 18.
fn tested(opened: bool, second: bool, b: &[u8]) -> Result<Kind, Refusal>
    ensures { result ≡ tested opened second b.now }
{
    if b.len() == 0 {
        return Err(Refusal::RecordLength);
    }
    let kind = Kind::try_from(kind_of(b))?;
    if !kind_right(opened, kind) {
        return Err(Refusal::RecordKind);
    }
    if !is_filled(kind, second, b) {
        return Err(Refusal::RecordLength);
    }
    Ok(kind)
}

// A record is handed to the load, or opens it. The match stays: each kind hands in something else.
fn take(load: &mut Load, kind: Kind, second: bool, b: &[u8]) -> Answer
    ensures { stepped result load.new ≡ unless_refused load.old (stepped_as kind (closed_reader second load.old) b.now) }
{
    match kind {
        Kind::Settings => load.reopen(settings_by(second, b)),
        Kind::Stop => load.take_stop(new_stop(b)),
        // Of a file a call names no service; after the search record it has the load searched again.
        Kind::Call => take_added(load, &[], call_in(b)),
        Kind::Rule => load.take_rule(rule_in(b)),
        Kind::Search => take_search(load),
    }
}

// The body of a record, what follows its length, taken in place.
pub fn take_record(reader: &mut Reader, b: &[u8]) -> Answer
    ensures { took result reader.new ≡ record_spec reader.old b.now }
{
    let kind = match tested(reader.opened, reader.second, b) {
        Ok(kind) => kind,
        Err(refusal) => return Err(refusal),
    };
    let answer = take(&mut reader.load, kind, reader.second, b);
    if is_refused(answer) {
        return answer;
    }
    reader.opened = true;
    reader.second = false;
    answer
}

// The same by value.
pub fn record(reader: Reader, b: &[u8]) -> RecordResult
    ensures { result ≡ record_spec reader b.now }
{
    let mut next = reader;
    let answer = take_record(&mut next, b);
    RecordResult {
        answer,
        reader: next,
    }
}
