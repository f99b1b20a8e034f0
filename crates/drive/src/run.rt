// A step file from its first byte to the lines of its last load: each record is handed to the load, or asks it, and a line says what came
// of it.
use crate::display_records::Board;
use crate::kind::Kind;
use crate::printed::told;
use crate::record_fields::{Fields, Malformed};
use crate::{call_records, query_records, settings_records, week_records, write_record};
use file::Reader;
use file::framed::Records;
use file::record::record;
use load::{Load, StepResult};
use prefix::first;
use refusal::{Answer, Refusal};
use stdio::load_lines::{horizon, journeys, table};
use stdio::out::Out;

// The open load, if there is one, and what is set aside and shown.
#[derive(Debug, Default, Drop, PartialEq)]
struct State {
    load: Option<Load>,
    board: Board,
}

impl State {
    // The open load, which a record needs.
    fn load(&self) -> Result<Load, Malformed> {
        self.load.ok_or(Malformed)
    }

    // An opening: another load in place of this one, unless it is refused.
    fn opened(&mut self, out: &mut Out, s: StepResult) {
        told(out, s.answer, "opened");
        if s.answer.is_ok() {
            self.load = Some(s.load);
        }
    }

    // A step on the open load.
    fn stepped<F: FnOnce(Load) -> Result<StepResult, Malformed>>(
        &mut self,
        out: &mut Out,
        step: F,
    ) -> Result<(), Malformed>
        requires { F.IsAlwaysCallable step }
    {
        let s = step(self.load()?)?;
        told(out, s.answer, "taken");
        self.load = Some(s.load);
        Ok(())
    }

    // The record, without its length. A match, as each kind has arguments and a line of its own. Output, load and fields are three
    // parameters of the records: the first is written to, the second read, the third used up.
    fn record(&mut self, out: &mut Out, b: &[u8]) -> Result<(), Malformed> {
        let (kind, fields) = b.split_first().ok_or(Malformed)?;
        let fields = Fields::new(fields);
        match Kind::try_from(*kind)? {
            Kind::Settings => self.opened(out, settings_records::opening(b)?),
            Kind::DatedSettings => self.opened(out, settings_records::dated_opening(b)?),
            Kind::Stop | Kind::Rule | Kind::Search => self.stepped(out, |load| filled(load, b))?,
            Kind::Call => self.stepped(out, |load| call_records::call(load, b))?,
            Kind::ServiceCall => self.stepped(out, |load| call_records::service_call(load, b))?,
            Kind::Withdrawal => self.stepped(out, |load| call_records::withdrawal(load, fields))?,
            Kind::Service => self.stepped(out, |load| week_records::service(load, fields))?,
            Kind::Exception => self.stepped(out, |load| week_records::exception(load, fields))?,
            Kind::LimitedSearch => {
                self.load = Some(query_records::limited(out, self.load()?, fields)?);
            }
            Kind::Best => query_records::best(out, self.load()?, fields)?,
            Kind::Next => query_records::next(out, self.load()?, fields)?,
            Kind::Write => write_record::write(out, self.load()?, fields)?,
            Kind::Aside => {
                let load = self.load()?;
                self.board.set_aside(out, load, fields)?;
            }
            Kind::Display => self.board.deal(out, fields)?,
            Kind::GroupBest => self.board.best(out, fields)?,
            Kind::GroupNext => self.board.next(out, fields)?,
        }
        Ok(())
    }
}

// A stop, rule or search, as a load file has it.
fn filled(load: Load, b: &[u8]) -> Result<StepResult, Malformed> {
    let reader = Reader {
        opened: true,
        second: false,
        load,
    };
    let t = record(reader, b);
    if is_malformed(t.answer) {
        return Err(Malformed);
    }
    Ok(StepResult {
        answer: t.answer,
        load: t.reader.load,
    })
}

// Whether a record was turned away before it was handed to the load.
fn is_malformed(answer: Answer) -> bool {
    matches!(
        answer,
        Err(Refusal::FileVersion | Refusal::RecordLength | Refusal::RecordKind)
    )
}

// A load at the end.
fn load_lines(out: &mut Out, load: Load) {
    table(out, &load.calls, load.call_count);
    journeys(out, first(&load.journeys, load.journey_count));
    horizon(out, load.horizon, load.limits);
    writeln!(
        out,
        "searched {} stopped {}",
        u8::from(load.searched),
        u8::from(load.limit.is_some())
    );
}

// The records after the first byte, up to one that is malformed or cut off; then the load.
fn run(out: &mut Out, bytes: &[u8]) -> Result<(), Malformed> {
    let mut state = State::default();
    let mut records = Records { rest: bytes };
    for b in records.by_ref() {
        state.record(out, b)?;
    }
    if !records.rest.is_empty() {
        return Err(Malformed);
    }
    if let Some(load) = state.load {
        load_lines(out, load);
    }
    Ok(())
}

// A file that doesn't begin with byte 83 is no step file.
pub fn file(out: &mut Out, bytes: &[u8]) {
    let ran = match bytes {
        [83, rest @ ..] => run(out, rest),
        _ => Err(Malformed),
    };
    if let Err(malformed) = ran {
        writeln!(out, "{malformed}");
    }
}
