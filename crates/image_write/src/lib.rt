// The setup image written, in either form: a table laid out in the bytes that the box keeps across updates.
#![tactic(auto)]

mod write;

ghost use Rattle.std.specs.Prelude.{◌≡◌, replicate};
ghost use Rattle.panels.specs.Wall.{panels_of};
ghost use Rattle.panels.specs.WellFormed.{WellFormed};
ghost use Rattle.image_write.specs.Private.Sizes.{fields_size};
ghost use Rattle.image_write.specs.Written.{record_size, size_of, largest, loses_nothing, written_of, refusal_number, output_of};

use image_forms::Form;
use panels::{MOST_PANELS, Table};
use refusals::{NO_ROOM, WOULD_LOSE};
use settings::{ROW_COUNT, VALUE_COUNT};

// The bytes before a field's values: set code and length.
const FIELD_HEAD: usize = 2;

// The bytes of the fields of all rows.
const ALL_FIELDS: usize = FIELD_HEAD * ROW_COUNT + VALUE_COUNT;

// And of those that form 1 does not have: the kind's, of one value, and the tiling's, of four.
const LATER_FIELDS: usize = FIELD_HEAD + 1 + (FIELD_HEAD + 4);

// The bytes of a start.
const START_SIZE: usize = 2;

// The bytes behind the starts: count and form.
const TRAILER_SIZE: usize = 2;

// The bytes of the largest image, that of a full table in form 2, whose records have a head of 3 bytes.
pub const LARGEST: usize = (3 + ALL_FIELDS + START_SIZE) * MOST_PANELS + TRAILER_SIZE;

// Why a table's image is not written: the form would lose something, or the output has no room for it.
#[derive(Clone, Copy, Debug, PartialEq, Eq)]
pub enum Refusal {
    WouldLose,
    NoRoom,
}

// 01's number for a refusal.
impl From<Refusal> for u8 {
    ghost from_gives = { λ refusal n. n ≡ refusal_number refusal };

    fn from(refusal: Refusal) -> u8 {
        match refusal {
            Refusal::WouldLose => WOULD_LOSE,
            Refusal::NoRoom => NO_ROOM,
        }
    }
}

// The bytes of all fields of a record.
fn fields_size(form: Form) -> usize
    ensures { result ≡ fields_size form }
{
    match form {
        Form::One => ALL_FIELDS - LATER_FIELDS,
        Form::Two => ALL_FIELDS,
    }
}

// The bytes of a record with all its fields.
fn record_size(form: Form) -> usize
    ensures { result ≡ record_size form }
{
    image_forms::head_size(form) + fields_size(form)
}

// The bytes of a table's image.
pub fn size_of(form: Form, t: Table) -> usize
    requires { WellFormed t }
    ensures { result ≡ size_of form (panels_of t) }
{
    (record_size(form) + START_SIZE) * panels::count_of(t) + TRAILER_SIZE
}

// An empty output with room for any table's image.
pub fn room() -> [u8; LARGEST]
    ensures { result ≡ replicate largest 0 }
{
    [0; LARGEST]
}

// Whether a form holds all that a table has.
pub fn loses_nothing(form: Form, t: Table) -> bool
    requires { WellFormed t }
    ensures { result ≡ loses_nothing form (panels_of t) }
{
    let places = panels::panels_of(t);
    places[..panels::count_of(t)]
        .iter()
        .all(|p| image_forms::keeps(form, p.profile, &p.values))
}

// The table's image at the front of out, of which the rest stays as it was, and the image's size.
pub fn write_image(form: Form, t: Table, out: &mut [u8]) -> Result<usize, Refusal>
    requires { WellFormed t }
    ensures value { result ≡ written_of form (panels_of t) out.old }
    ensures out_after { out.new ≡ output_of form (panels_of t) out.old }
{
    if !loses_nothing(form, t) {
        return Err(Refusal::WouldLose);
    }
    let size = size_of(form, t);
    if out.len() < size {
        return Err(Refusal::NoRoom);
    }
    let n = panels::count_of(t);
    let end = size - TRAILER_SIZE;
    write::records(form, out, t);
    write::starts(form, &mut out[end - START_SIZE * n..], n);
    out[end] = n as u8;
    out[end + 1] = u8::from(form);
    Ok(size)
}
