// How an outcome prints.
ghost use Rattle.std.specs.Prelude.{Some};
ghost use Rattle.host.specs.Words.{end_word, outcome_words};

use crate::{End, Outcome};
use std::fmt;

impl fmt::Display for End {
    ghost output = { λ end. Some (end_word end) };

    fn fmt<W: fmt::Write>(&self, f: &mut fmt::Formatter<W>) -> fmt::Result {
        f.write_str(match self {
            End::Unheard => "unheard",
            End::Ack => "ack",
            End::Nav => "nav",
            End::OffOrRefused => "off-or-refused",
            End::Report => "report",
            End::GivenUp => "given-up",
        })
    }
}

impl fmt::Display for Outcome {
    ghost output = { λ outcome. Some (outcome_words outcome) };

    fn fmt<W: fmt::Write>(&self, f: &mut fmt::Formatter<W>) -> fmt::Result {
        match self {
            Outcome::Idle => f.write_str("idle"),
            Outcome::Resting => f.write_str("resting"),
            Outcome::Waiting => f.write_str("waiting"),
            Outcome::Over(end, n) => write!(f, "{end} {n}"),
            Outcome::Refused(refusal) => write!(f, "refused {}", u8::from(*refusal)),
        }
    }
}
