// What is wrong with a step.
use refusal::Refusal;
use std::fmt;

#[derive(Clone, Copy, Debug, PartialEq, Eq)]
pub enum Fault {
    // What is refused for this cause.
    Meets(Refusal),
    // A time is absent.
    Absent,
    // A call is outside the window.
    Outside,
    // A call's service doesn't run.
    Rests,
    // No room for the list of the search that follows.
    Falls,
}

impl fmt::Display for Fault {
    fn fmt<W: fmt::Write>(&self, f: &mut fmt::Formatter<W>) -> fmt::Result {
        f.write_str(match *self {
            Fault::Meets(cause) => return write!(f, "{}", u8::from(cause)),
            Fault::Absent => "absent",
            Fault::Outside => "outside",
            Fault::Rests => "rests",
            Fault::Falls => "list falls",
        })
    }
}

// One fault, or two in the scope's order.
#[derive(Clone, Copy, Debug, PartialEq, Eq)]
pub struct Faults {
    pub first: Fault,
    pub second: Option<Fault>,
}

impl Faults {
    pub fn have(self, fault: Fault) -> bool {
        self.first == fault || self.second == Some(fault)
    }

    pub fn meet(self, cause: Refusal) -> bool {
        self.have(Fault::Meets(cause))
    }

    // How many of something a load is to have for this fault: so many with it, none without it.
    pub fn many(self, fault: Fault, count: u16) -> u16 {
        if self.have(fault) { count } else { 0 }
    }
}

impl fmt::Display for Faults {
    fn fmt<W: fmt::Write>(&self, f: &mut fmt::Formatter<W>) -> fmt::Result {
        let first = self.first;
        match self.second {
            None => write!(f, "{first}"),
            Some(second) => write!(f, "{first}+{second}"),
        }
    }
}
