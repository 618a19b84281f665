// The values of a record's fields, or why the walk over them stopped.
ghost use Rattle.std.specs.Prelude.{◌≡◌};
ghost use Rattle.image_read.specs.Fields.{fields_in};

use image_forms::Form;
use image_record::Step;
use refusals::Refusal;
use settings::{Profile, ROW_COUNT, VALUE_COUNT};

// The values of a panel of a profile whose record, of this form, goes on with these bytes.
#[tactic(auto, unfolding(crate::specs::Fields::fields_from))]
pub fn fields_of(form: Form, profile: Profile, bytes: &[u8]) -> Result<[u8; VALUE_COUNT], Refusal>
    ensures { result ≡ fields_in form profile bytes.now }
{
    let mut values = settings::fresh(profile);
    let mut seen = [false; ROW_COUNT];
    let stop = image_record::take_fields(form, profile, bytes, &mut seen, &mut values);
    match stop.step {
        Step::NotAllowed(_) => Err(Refusal::Value),
        Step::Broken => Err(Refusal::Field),
        Step::Field(_) | Step::End => Ok(values),
    }
}
