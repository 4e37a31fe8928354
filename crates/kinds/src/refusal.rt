// The causes of refusal (N3), in the order of their table. A call that a cause forbids is refused with the cause's number.
use crate::reason;

#[derive(Clone, Copy, Debug, PartialEq, Eq)]
pub enum Refusal {
    Short,
    Malformed,
    BadTable,
    Elsewhere,
    NotNext,
    Unknown,
    NotCoordinator,
    Stage,
    Outstanding,
    Forgotten,
    Held,
    Newer,
    TooMany,
    TooLong,
    Full,
    Spent,
    Behind,
    QueueFull,
    NotWhole,
    Nothing,
    NoPage,
}

// The number that the requirements give a cause.
impl From<Refusal> for u64 {
    ghost use Rattle.std.specs.Prelude.{◌≡◌};
    ghost use Rattle.kinds.specs.Refusal.{number_of};

    ghost from_gives = { λ cause n. n ≡ number_of cause };

    fn from(cause: Refusal) -> u64 {
        match cause {
            Refusal::Short => reason::SHORT,
            Refusal::Malformed => reason::MALFORMED,
            Refusal::BadTable => reason::BAD_TABLE,
            Refusal::Elsewhere => reason::ELSEWHERE,
            Refusal::NotNext => reason::NOT_NEXT,
            Refusal::Unknown => reason::UNKNOWN,
            Refusal::NotCoordinator => reason::NOT_COORDINATOR,
            Refusal::Stage => reason::STAGE,
            Refusal::Outstanding => reason::OUTSTANDING,
            Refusal::Forgotten => reason::FORGOTTEN,
            Refusal::Held => reason::HELD,
            Refusal::Newer => reason::NEWER,
            Refusal::TooMany => reason::TOO_MANY,
            Refusal::TooLong => reason::TOO_LONG,
            Refusal::Full => reason::FULL,
            Refusal::Spent => reason::SPENT,
            Refusal::Behind => reason::BEHIND,
            Refusal::QueueFull => reason::QUEUE_FULL,
            Refusal::NotWhole => reason::NOT_WHOLE,
            Refusal::Nothing => reason::NOTHING,
            Refusal::NoPage => reason::NO_PAGE,
        }
    }
}
