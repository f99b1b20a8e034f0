// A file's load searched within a limit on joins.
ghost use Rattle.std.specs.Prelude.{◌≡◌};
ghost use Rattle.load.specs.declared.Load.{Load};
ghost use Rattle.file.specs.Record.{took};
ghost use Rattle.search.specs.Within.{answered_by};
ghost use Rattle.timetable.specs.List.{within_of};

use file::Reader;
use limited_rides::Tested;
use refusal::{Accepted, Answer, Refusal};
use search::take_search_within;

// A refused file isn't searched.
pub fn search_read(answer: Answer, reader: &mut Reader, limit: u64) -> Result<Tested, Refusal>
    ensures { answered_by reader.new.load result ≡ within_of (took answer reader.old) limit }
{
    match answer {
        Ok(_) => take_search_within(&mut reader.load, limit),
        Err(refusal) => Err(refusal),
    }
}

pub fn answer_of(tested: Result<Tested, Refusal>) -> Answer
    ensures { (l : Load) → result ≡ (answered_by l tested).answer }
{
    tested.map(|_| Accepted::Taken)
}

pub fn joins_of(tested: Result<Tested, Refusal>) -> u64
    ensures { (l : Load) → result ≡ (answered_by l tested).joins }
{
    match tested {
        Ok(tested) => tested.joins,
        Err(_) => 0,
    }
}
