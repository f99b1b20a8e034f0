// The kinds of a step file's records.
use crate::record_fields::Malformed;

#[derive(Clone, Copy, Debug, PartialEq, Eq)]
pub enum Kind {
    Settings,
    Stop,
    Call,
    Rule,
    Search,
    Service,
    Exception,
    Withdrawal,
    LimitedSearch,
    ServiceCall,
    DatedSettings,
    Best,
    Next,
    Write,
    Aside,
    Display,
    GroupBest,
    GroupNext,
}

// No derive makes a kind of a number; the numbers are those of docs/STEPS.md.
impl TryFrom<u8> for Kind {
    type Error = Malformed;

    fn try_from(code: u8) -> Result<Self, Malformed> {
        match code {
            1 => Ok(Kind::Settings),
            2 => Ok(Kind::Stop),
            3 => Ok(Kind::Call),
            4 => Ok(Kind::Rule),
            5 => Ok(Kind::Search),
            6 => Ok(Kind::Service),
            7 => Ok(Kind::Exception),
            8 => Ok(Kind::Withdrawal),
            9 => Ok(Kind::LimitedSearch),
            10 => Ok(Kind::ServiceCall),
            11 => Ok(Kind::DatedSettings),
            12 => Ok(Kind::Best),
            13 => Ok(Kind::Next),
            14 => Ok(Kind::Write),
            15 => Ok(Kind::Aside),
            16 => Ok(Kind::Display),
            17 => Ok(Kind::GroupBest),
            18 => Ok(Kind::GroupNext),
            _ => Err(Malformed),
        }
    }
}
