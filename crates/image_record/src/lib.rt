// One record of a setup image of either form: its head, and its fields, taken up to one that cannot be.
#![tactic(auto)]

mod fields;

ghost use Rattle.std.specs.Prelude.{◌≡◌, ◌≤◌, length};
ghost use Rattle.image_forms.specs.Forms.{head_size, profile_in};
ghost use Rattle.image_record.specs.Head.{marked, head_fits, head_in};
ghost use Rattle.image_record.specs.Run.{run_from, stop_of};

use image_forms::Form;
use panels::ID_COUNT;
use settings::{Profile, ROW_COUNT, Row, VALUE_COUNT};

// What stands at the front of a record's bytes: a field of a row, one whose values are not allowed, a broken one, or the end. Four
// states, and not a Result of an Option: both callers go by each of the four in one match.
#[derive(Clone, Copy)]
pub enum Step {
    Field(Row),
    NotAllowed(Row),
    Broken,
    End,
}

// How many bytes of fields were taken, and what stands behind them.
#[derive(Clone, Copy)]
pub struct Stop {
    pub step: Step,
    pub taken: usize,
}

// A whole head, neither ID nor group 0, and an ID not seen before.
fn head_fits(form: Form, bytes: &[u8], seen: &[bool; ID_COUNT]) -> bool
    ensures { result ≡ head_fits form (marked seen.now) bytes.now }
{
    if bytes.len() < image_forms::head_size(form) {
        return false;
    }
    let id = bytes[0];
    if id == 0 {
        return false;
    }
    if bytes[1] == 0 {
        return false;
    }
    !seen[id as usize]
}

// The profile that a whole head says. Form 1 has none: its records are general.
fn profile_in(form: Form, bytes: &[u8]) -> Option<Profile>
    requires { head_size form ≤ length bytes.now }
    ensures { result ≡ profile_in form bytes.now }
{
    match form {
        Form::One => Some(Profile::General),
        Form::Two => Profile::try_from(bytes[2]).ok(),
    }
}

// The profile of a record whose head fits, where the IDs seen before are marked; any other is refused by 16.
pub fn head_in(form: Form, bytes: &[u8], seen: &[bool; ID_COUNT]) -> Option<Profile>
    ensures { result ≡ head_in form (marked seen.now) bytes.now }
{
    if !head_fits(form, bytes, seen) {
        return None;
    }
    profile_in(form, bytes)
}

// Takes the fields at the front of the bytes that are left, as long as they can be: each one's row is seen, and its values are
// among those gathered. A loop, since where a step ends is known only from the step.
pub fn take_fields(
    form: Form,
    profile: Profile,
    left: &[u8],
    seen: &mut [bool; ROW_COUNT],
    values: &mut [u8; VALUE_COUNT],
) -> Stop
    ensures value { result ≡ stop_of left.now (run_from form profile seen.old values.old left.now) }
    ensures seen_after { seen.new ≡ (run_from form profile seen.old values.old left.now).seen }
    ensures values_after { values.new ≡ (run_from form profile seen.old values.old left.now).values }
{
    let mut at = 0;
    loop {
        let step = fields::step_at(form, profile, &left[at..], seen, values);
        let Step::Field(row) = step else {
            return Stop { step, taken: at };
        };
        let first = at + 2;
        let end = first + row.byte_count();
        row.store(&left[first..end], values);
        seen[row.index()] = true;
        at = end;
    }
}
