// The fields of a record that is kept: each up to the first that is broken.
ghost use Rattle.std.specs.Prelude.{◌≡◌, ◌+◌, ◌*◌, ◌≤◌, length};
ghost use Rattle.lists.specs.Lists.{laid_at};
ghost use Rattle.image_faults.specs.Lines.{line_of, longest_line};
ghost use Rattle.image_salvage.specs.Kept.{kept_of, most_faults};
ghost use Rattle.image_salvage.specs.Salvaged.{lines_of};

use crate::{KeptFields, MOST_FAULTS};
use image_faults::Fault;
use image_forms::Form;
use image_record::Step;
use settings::{Profile, ROW_COUNT};

// The line of a fault at a place of the text, and where the next begins.
pub fn tell(number: u8, fault: Fault, lines: &mut [u8], at: usize) -> usize
    requires { at + longest_line ≤ length lines.old }
    ensures value { result ≡ at + length (line_of number fault) }
    ensures lines_after { lines.new ≡ laid_at at (line_of number fault) lines.old }
{
    let line = image_faults::line_of(number, fault);
    at + lists::copy(&line.bytes[..line.count], &mut lines[at..])
}

// The values of a panel of a profile whose record, with this number and of this form, goes on with these bytes; its faults are
// told from a place of the text on.
pub fn kept(
    form: Form,
    profile: Profile,
    number: u8,
    bytes: &[u8],
    lines: &mut [u8],
    from: usize,
) -> KeptFields
    requires { from + most_faults * longest_line ≤ length lines.old }
    ensures values_value { result.values ≡ (kept_of form profile bytes.now).values }
    ensures next_value { result.next ≡ from + length (lines_of number (kept_of form profile bytes.now).faults) }
    ensures lines_after { lines.new ≡ laid_at from (lines_of number (kept_of form profile bytes.now).faults) lines.old }
{
    let mut values = settings::fresh(profile);
    let mut seen = [false; ROW_COUNT];
    let mut at = 0;
    let mut next = from;
    for _k in 0..MOST_FAULTS {
        let stop = image_record::take_fields(form, profile, &bytes[at..], &mut seen, &mut values);
        at += stop.taken;
        let step = stop.step;
        match step {
            Step::NotAllowed(row) => {
                next = tell(number, Fault::NotAllowed(bytes[at]), lines, next);
                seen[row.index()] = true;
                at = at + 2 + row.byte_count();
            }
            Step::Broken => {
                next = tell(number, Fault::Broken(bytes[at]), lines, next);
                return KeptFields { values, next };
            }
            Step::Field(_) => {
                return KeptFields { values, next };
            }
            Step::End => {
                return KeptFields { values, next };
            }
        }
    }
    KeptFields { values, next }
}
