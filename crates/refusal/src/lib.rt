// Why a step is sent back: one case for each cause, with its number of RULES 16.1; and the answer of a step.
#![tactic(auto)]

ghost use Rattle.std.specs.Prelude.{◌≡◌};
ghost use Rattle.refusal.specs.Causes.{number_of};
ghost use Rattle.refusal.specs.First.{is_refused, is_taken};

#[derive(Clone, Copy, Debug, PartialEq, Eq)]
pub enum Refusal {
    // an origin or target count above 4, `max_transfers` above 2, a change time above 15300; `max_transfers` 2 for a limited search
    SettingsRange = 1,
    // the start or an epoch beyond ±2^40
    ClockRange = 2,
    // a stop's id, or a service's name, that is empty or over 32 bytes
    IdLength = 3,
    // the 129th stop
    StopsFull = 4,
    // a stop's id, or a service's name, that was taken before
    IdTaken = 5,
    // a location type above 1, or a station with a parent
    LocationType = 6,
    // a parent that is no station of the load
    ParentUnknown = 7,
    // a name over 64 bytes, or a needed name that can't be used
    NameUnusable = 8,
    // of a call or rule an unknown stop; of a call or withdrawal trip 65535 or a day above 2; of a call pickup or drop-off above 3
    FieldRange = 9,
    // arrival after departure
    TimesReversed = 10,
    // the 129th rule; a horizon, or the window of a display's group, that would fall below 3600
    NoRoom = 11,
    // a transfer type above 3, or type 2 without seconds
    RuleType = 12,
    // a rule for the same pair
    PairTaken = 13,
    // two neighbours in order of one trip and day, of one sequence or the first departing after the second arrives
    Neighbours = 14,
    // a stop, rule, service, exception or search after the search (a call is taken then); a service or exception after a call that was
    // answered taken or outside, or on a load without dates
    AlreadySearched = 15,
    // a time text that is not digits:2 digits:2 digits, or out of range
    TimeText = 16,
    // a load file of another or no version
    FileVersion = 17,
    // a record of length 0, past the end of the file, or not filled by its fields; an optional byte above 1
    RecordLength = 18,
    // a kind outside 1 to 5, a first record other than settings, a second settings, a file with no record
    RecordKind = 19,
    // a date that the calendar hasn't, or an exception type other than 1 and 2
    DateWrong = 20,
    // a service that was not taken, named by a call or an exception
    ServiceUnknown = 21,
    // the 65th service
    ServicesFull = 22,
    // a group of a display above 3 or given twice, a load that is not searched, a start unlike the lowest group's
    DisplayGroups = 23,
    // a withdrawal that names no call of the table
    CallUnknown = 24,
    // a load that can't be written: with dates, of a stopped search, or with a table that was cut
    LoadUnwritable = 25,
    // a lent buffer that is shorter than the file
    BufferShort = 26,
}

// What becomes of a step that is not sent back. Only a call can lie outside the window.
#[derive(Clone, Copy, Debug, PartialEq, Eq)]
pub enum Accepted {
    Taken,
    Outside,
}

// What a step answers.
pub type Answer = Result<Accepted, Refusal>;

// The number of a cause.
impl From<Refusal> for u8 {
    ghost from_gives = { λ r n. n ≡ number_of r };

    fn from(r: Refusal) -> u8 {
        r as u8
    }
}

// Whether an answer sends the step back: its `is_err`, by a name that contracts can give it; likewise `is_taken`.
pub fn is_refused(a: Answer) -> bool
    ensures { result ≡ is_refused a }
{
    a.is_err()
}

pub fn is_taken(a: Answer) -> bool
    ensures { result ≡ is_taken a }
{
    a == Ok(Accepted::Taken)
}
