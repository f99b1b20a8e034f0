// A load file of version 1 or 2 (RULES 13): the definitions of what is read of one, and its records, tested and taken one by one.
#![tactic(auto)]

pub mod framed;
pub mod record;
pub mod stop_texts;

use load::Load;
use refusal::Answer;

// The load so far; before the settings are taken, the empty load of blank settings, and whether the file is of version 2.
// A flag and no enum: after a refusal callers take the load in either state, and `second` counts only in the first.
#[derive(Clone, Copy, Debug, PartialEq)]
pub struct Reader {
    pub opened: bool,
    pub second: bool,
    pub load: Load,
}

// What a record is answered, and the reader after it: the reader given, where the record is refused.
// As with `StepResult`, the load goes on beside its answer, also where that refuses.
#[derive(Clone, Copy, Debug, PartialEq)]
pub struct RecordResult {
    pub answer: Answer,
    pub reader: Reader,
}

// What is answered to bytes, how many of them whole records took, and the reader after those: by value beside the answer, as in
// `RecordResult`.
#[derive(Clone, Copy, Debug, PartialEq)]
pub struct ReadResult {
    pub answer: Answer,
    pub used: usize,
    pub reader: Reader,
}

// The same of a reader that is lent.
#[derive(Clone, Copy, Debug, PartialEq)]
pub struct Used {
    pub answer: Answer,
    pub used: usize,
}
