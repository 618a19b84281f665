// The two forms of a setup image, which differ in the form byte, in a record's head, and in the fields that they have.
#![tactic(auto)]

ghost use Rattle.std.specs.Prelude.{◌≡◌, length, ok_or};
ghost use Rattle.settings.specs.Settings.{value_count};
ghost use Rattle.image_forms.specs.Forms.{form_byte, form_with, head_size, holds, has_field, is_fresh, keeps_row, keeps};

use settings::{Profile, Row};

#[derive(Clone, Copy, Debug, PartialEq, Eq)]
pub enum Form {
    One,
    Two,
}

// A form byte that no form has.
#[derive(Clone, Copy, Debug, PartialEq, Eq)]
pub struct UnknownForm;

// The byte that an image of a form ends with.
impl From<Form> for u8 {
    ghost from_gives = { λ form byte. byte ≡ form_byte form };

    fn from(form: Form) -> u8 {
        match form {
            Form::One => 1,
            Form::Two => 2,
        }
    }
}

// The form of an image that ends with a byte, if one does.
impl TryFrom<u8> for Form {
    type Error = UnknownForm;

    ghost try_from_gives = { λ byte r. r ≡ ok_or (form_with byte) (record {}) };

    #[tactic(auto, unfolding(crate::specs::Forms::form_with))]
    fn try_from(byte: u8) -> Result<Form, UnknownForm> {
        match byte {
            1 => Ok(Form::One),
            2 => Ok(Form::Two),
            _ => Err(UnknownForm),
        }
    }
}

// The bytes before a record's fields: ID, group, and in form 2 the profile.
pub fn head_size(form: Form) -> usize
    ensures { result ≡ head_size form }
{
    match form {
        Form::One => 2,
        Form::Two => 3,
    }
}

// Whether a form has room for a profile. Form 1 has none: its records are general.
pub fn holds(form: Form, profile: Profile) -> bool
    ensures { result ≡ holds form profile }
{
    match form {
        Form::One => profile == Profile::General,
        Form::Two => true,
    }
}

// Whether a form has a field for a row. Form 1 has none for the kind and the tiling.
pub fn has_field(form: Form, row: usize) -> bool
    ensures { result ≡ has_field form row }
{
    match form {
        Form::One => row != Row::KIND.index() && row != Row::TILING.index(),
        Form::Two => true,
    }
}

// Whether a row has its fresh values. It is inlined, as its row is then known: its place and its bytes are constants.
#[inline(always)]
fn is_fresh(row: Row, values: &[u8]) -> bool
    requires { length values.now ≡ value_count }
    ensures { result ≡ is_fresh row values.now }
{
    let fresh = settings::fresh(Profile::General);
    let first = row.place();
    let end = first + row.byte_count();
    values[first..end] == fresh[first..end]
}

// Whether a form loses nothing of a row: it has a field for it, or the row is fresh.
#[inline(always)]
fn keeps_row(form: Form, row: Row, values: &[u8]) -> bool
    requires { length values.now ≡ value_count }
    ensures { result ≡ keeps_row form row values.now }
{
    has_field(form, row.index()) || is_fresh(row, values)
}

// Whether a form loses nothing of a panel with this profile and these values.
#[tactic(auto, unfolding(crate::specs::Forms::keeps))]
pub fn keeps(form: Form, profile: Profile, values: &[u8]) -> bool
    requires { length values.now ≡ value_count }
    ensures { result ≡ keeps form profile values.now }
{
    holds(form, profile)
        && keeps_row(form, Row::KIND, values)
        && keeps_row(form, Row::TILING, values)
}
