// An image's parts, each laid over the front of the output that it is lent.
ghost use Rattle.std.specs.Prelude.{◌≡◌, ◌+◌, ◌*◌, ◌≤◌, ◌<◌, length};
ghost use mathlib.Core.List.{flatten};
ghost use Rattle.settings.specs.Settings.{byte_count, values_of, value_count};
ghost use Rattle.lists.specs.Lists.{each, laid_over};
ghost use Rattle.panels.specs.Wall.{panels_of, most_panels};
ghost use Rattle.panels.specs.WellFormed.{WellFormed};
ghost use Rattle.image_write.specs.Private.Sizes.{field_head, fields_size};
ghost use Rattle.image_write.specs.Written.{field, field_in, fields_of, record_of, records_of, high_low, record_size};
ghost use Rattle.image_forms.specs.Forms.{head_size, head_of};

use crate::{FIELD_HEAD, START_SIZE};
use image_forms::Form;
use panels::{Panel, Table};
use settings::{ROW_COUNT, Row, VALUE_COUNT};

// A row's field: set code, length, values.
fn one_field(out: &mut [u8], row: Row, values: &[u8; VALUE_COUNT])
    requires { field_head + byte_count row ≤ length out.old }
    ensures { out.new ≡ laid_over (field row (values_of row values.now)) out.old }
{
    let count = row.byte_count();
    let first = row.place();
    out[0] = row.set_code();
    out[1] = count as u8;
    out[FIELD_HEAD..FIELD_HEAD + count].copy_from_slice(&values[first..first + count]);
}

// A row's field where the form has one, and how many bytes it has.
fn field_in(form: Form, out: &mut [u8], row: Row, values: &[u8; VALUE_COUNT]) -> usize
    requires { length (field_in form values.now row) ≤ length out.old }
    ensures value { result ≡ length (field_in form values.now row) }
    ensures out_after { out.new ≡ laid_over (field_in form values.now row) out.old }
{
    if !image_forms::has_field(form, row.index()) {
        return 0;
    }
    one_field(out, row, values);
    FIELD_HEAD + row.byte_count()
}

// All fields that the form has, by rising code.
fn all_fields(form: Form, out: &mut [u8], values: &[u8; VALUE_COUNT])
    requires { fields_size form ≤ length out.old }
    ensures { out.new ≡ laid_over (flatten (fields_of form values.now)) out.old }
{
    let mut next = 0;
    for k in 0..ROW_COUNT {
        next += field_in(form, &mut out[next..], Row::numbered(k), values);
    }
}

// A record's head: ID, group, and in form 2 the profile's number.
fn head(form: Form, out: &mut [u8], p: &Panel)
    requires { head_size form ≤ length out.old }
    ensures { out.new ≡ laid_over (head_of form p.now.id.0 p.now.group.0 p.now.profile) out.old }
{
    out[0] = p.id.0;
    out[1] = p.group.0;
    if let Form::Two = form {
        out[2] = u8::from(p.profile);
    }
}

// A record: its head, then fields.
fn one_record(form: Form, out: &mut [u8], p: &Panel)
    requires { (length p.now.values ≡ value_count) × (record_size form ≤ length out.old) }
    ensures { out.new ≡ laid_over (record_of form p.now) out.old }
{
    head(form, out, p);
    all_fields(form, &mut out[image_forms::head_size(form)..], &p.values);
}

// The records, in table order.
pub fn records(form: Form, out: &mut [u8], t: Table)
    requires { WellFormed t × (record_size form * length (panels_of t) ≤ length out.old) }
    ensures { out.new ≡ laid_over (flatten (records_of form (panels_of t))) out.old }
{
    let size = crate::record_size(form);
    let n = panels::count_of(t);
    let places = panels::panels_of(t);
    for (k, p) in places[..n].iter().enumerate() {
        one_record(form, &mut out[size * k..], p);
    }
}

// The starts of n records, high byte first.
pub fn starts(form: Form, out: &mut [u8], n: usize)
    requires { (n ≤ most_panels) × (2 * n ≤ length out.old) }
    ensures { out.new ≡ laid_over (flatten (each (λ k. high_low (record_size form * k)) n)) out.old }
{
    let size = crate::record_size(form);
    for k in 0..n {
        let start = (size * k) as u16;
        out[START_SIZE * k..START_SIZE * k + START_SIZE].copy_from_slice(&start.to_be_bytes());
    }
}
