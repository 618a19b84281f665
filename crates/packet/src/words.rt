// How what is wrong with a burst prints.
ghost use Rattle.std.specs.Prelude.{Some};
ghost use Rattle.packet.specs.Words.{damage_word};

use crate::Damage;
use std::fmt;

impl fmt::Display for Damage {
    ghost output = { λ damage. Some (damage_word damage) };

    fn fmt<W: fmt::Write>(&self, f: &mut fmt::Formatter<W>) -> fmt::Result {
        f.write_str(match self {
            Damage::TooShort => "too-short",
            Damage::TooLong => "too-long",
            Damage::Size => "size",
            Damage::Checksum => "checksum",
        })
    }
}
