// A list of bursts played on the table of a setup.
ghost use Rattle.std.specs.Prelude.{◌≡◌, ◌≤◌, length};
ghost use Rattle.image_forms.specs.declared.Form.{Form};
ghost use Rattle.panels.specs.Wall.{panels_of};
ghost use Rattle.panels.specs.WellFormed.{WellFormed};
ghost use Rattle.image_write.specs.Written.{size_of};
ghost use Rattle.undivarro.specs.Private.Refused.{outcome_of};
ghost use Rattle.undivarro.specs.Calls.{after_list};

use crate::{Outcome, Refused, parts};
use image_forms::Form;
use packet::Edition;
use panels::Table;

// A list played on a table, on a line of an edition: the answers, and the setup as it then is, in an output with room for it.
pub(crate) fn played(
    edition: Edition,
    mut t: Table,
    list: &[u8],
    answers: &mut [u8],
    out: &mut [u8],
) -> Result<Outcome, Refused>
    requires { WellFormed t × (size_of Form.Two (panels_of t) ≤ length out.old) }
    ensures value { outcome_of result ≡ (after_list edition (panels_of t) list.now answers.old out.old).outcome }
    ensures answers_after { answers.new ≡ (after_list edition (panels_of t) list.now answers.old out.old).answer }
    ensures out_after { out.new ≡ (after_list edition (panels_of t) list.now answers.old out.old).out }
{
    let answered = batch::play_list(edition, &mut t, list, answers)?;
    let written = parts::put_setup(Form::Two, t, out);
    Ok(Outcome {
        refusal: 0,
        damage: 0,
        answered,
        written,
    })
}
