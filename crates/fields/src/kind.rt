// The kinds of a load file's records.
use refusal::Refusal;

#[derive(Clone, Copy, Debug, PartialEq, Eq)]
pub enum Kind {
    Settings = 1,
    Stop,
    Call,
    Rule,
    Search,
}

// No derive makes a kind of a number. 19 tells of one that is no kind's.
impl TryFrom<u8> for Kind {
    ghost use Rattle.std.specs.Prelude.{◌≡◌};
    ghost use Rattle.fields.specs.Kind.{kind_of_number};

    type Error = Refusal;

    ghost try_from_gives = { λ n r. r ≡ kind_of_number n };

    #[tactic(auto, unfolding(crate::specs::Kind::kind_of_number))]
    fn try_from(number: u8) -> Result<Self, Refusal> {
        match number {
            1 => Ok(Kind::Settings),
            2 => Ok(Kind::Stop),
            3 => Ok(Kind::Call),
            4 => Ok(Kind::Rule),
            5 => Ok(Kind::Search),
            _ => Err(Refusal::RecordKind),
        }
    }
}
