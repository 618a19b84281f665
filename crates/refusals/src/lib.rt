// Why a setup image is refused, and the numbers of refusals that several rooms give.
#![tactic(auto)]

ghost use Rattle.std.specs.Prelude.{◌≡◌};
ghost use Rattle.refusals.specs.Refusals.{refusal_number};

// A lent output is too short.
pub const NO_ROOM: u8 = 19;

// An edition that there is not.
pub const UNKNOWN_EDITION: u8 = 23;

// Form 1 would lose something.
pub const WOULD_LOSE: u8 = 31;

// Why an image was refused: as a whole, or for a record, a field or a value.
#[derive(Clone, Copy, Debug, PartialEq, Eq)]
pub enum Refusal {
    TooShort,
    OtherForm,
    TooMany,
    NoStarts,
    Starts,
    Record,
    Field,
    Value,
}

// 01's number for a refusal.
impl From<Refusal> for u8 {
    ghost from_gives = { λ r n. n ≡ refusal_number r };

    fn from(r: Refusal) -> u8 {
        match r {
            Refusal::TooShort => 11,
            Refusal::OtherForm => 12,
            Refusal::TooMany => 13,
            Refusal::NoStarts => 14,
            Refusal::Starts => 15,
            Refusal::Record => 16,
            Refusal::Field => 17,
            Refusal::Value => 18,
        }
    }
}
