// The parts of a call: the room, the refusal, and what is put into each output.
ghost use Rattle.std.specs.Prelude.{◌≡◌, [], ◌≤◌, true, ◌&&◌, leb, length, take};
ghost use Rattle.lists.specs.Lists.{laid_over};
ghost use Rattle.panels.specs.Wall.{panels_of};
ghost use Rattle.panels.specs.WellFormed.{WellFormed};
ghost use Rattle.image_write.specs.Written.{size_of, setup_of, loses_nothing};
ghost use Rattle.undivarro.specs.Calls.{refused};
ghost use Rattle.undivarro.specs.Private.Refused.{outcome_of};

use crate::{Outcome, Refused};
use image_forms::Form;
use panels::Table;
use refusals::{NO_ROOM, Refusal, UNKNOWN_EDITION, WOULD_LOSE};

// Room for any answer or for any lines, which is at least so much, and for a table's image.
pub(crate) fn has_room(form: Form, t: Table, least: usize, answer: usize, out: usize) -> bool
    requires { WellFormed t }
    ensures { result ≡ (leb least answer && leb (size_of form (panels_of t)) out) }
{
    if answer < least {
        return false;
    }
    image_write::size_of(form, t) <= out
}

// What a setup is refused by, a call is.
impl From<Refusal> for Refused {
    ghost use Rattle.std.specs.Prelude.{◌≡◌};
    ghost use Rattle.undivarro.specs.declared.Refused.{Refused};

    ghost from_gives = { λ r call. call ≡ Refused.Setup r };

    fn from(r: Refusal) -> Refused {
        Refused::Setup(r)
    }
}

// And what a list of bursts is refused by.
impl From<batch::Refusal> for Refused {
    ghost use Rattle.std.specs.Prelude.{◌≡◌};
    ghost use Rattle.undivarro.specs.declared.Refused.{Refused};

    ghost from_gives = { λ r call. call ≡ Refused.List r };

    fn from(r: batch::Refusal) -> Refused {
        Refused::List(r)
    }
}

// 11 to 18 for the setup, 31, 19 and 23, and 32 and 33 for the list.
impl From<Refused> for u32 {
    ghost use Rattle.std.specs.Prelude.{◌≡◌};
    ghost use Rattle.undivarro.specs.Private.Refused.{refused_number};

    ghost from_gives = { λ r number. number ≡ refused_number r };

    fn from(r: Refused) -> u32 {
        match r {
            Refused::Setup(r) => u8::from(r) as u32,
            Refused::WouldLose => WOULD_LOSE as u32,
            Refused::NoRoom => NO_ROOM as u32,
            Refused::UnknownEdition => UNKNOWN_EDITION as u32,
            Refused::List(r) => u8::from(r) as u32,
        }
    }
}

// What comes back of a call, refused or not.
pub(crate) fn outcome_of(r: Result<Outcome, Refused>) -> Outcome
    ensures { result ≡ outcome_of r }
{
    match r {
        Ok(outcome) => outcome,
        Err(why) => refused(why.into()),
    }
}

// A refusal: both lengths are 0, and no damage is told.
pub(crate) fn refused(refusal: u32) -> Outcome
    ensures { result ≡ (refused refusal [] []).outcome }
{
    Outcome {
        refusal,
        damage: 0,
        answered: 0,
        written: 0,
    }
}

// The image of a table that a form holds, at the front of an output with room for it, and its length.
pub(crate) fn put_setup(form: Form, t: Table, out: &mut [u8]) -> usize
    requires { WellFormed t × (loses_nothing form (panels_of t) ≡ true) × (size_of form (panels_of t) ≤ length out.old) }
    ensures value { result ≡ length (setup_of form (panels_of t)) }
    ensures out_after { out.new ≡ laid_over (setup_of form (panels_of t)) out.old }
{
    image_write::write_image(form, t, out).unwrap()
}

// The first bytes of a text at the front of an output.
pub(crate) fn put_text(text: &[u8], told: usize, out: &mut [u8])
    requires { (told ≤ length text.now) × (told ≤ length out.old) }
    ensures { out.new ≡ laid_over (take told text.now) out.old }
{
    lists::copy(&text[..told], out);
}
