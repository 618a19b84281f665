// Many bursts in one call. A list of them, in the play program's input form, is looked at whole and then played one by one; for
// each a count byte and the answer go into a lent output.
#![tactic(auto)]

mod playing;

ghost use Rattle.std.specs.Prelude.{◌≡◌, Some, length};
ghost use Rattle.lists.specs.Lists.{laid_over};
ghost use Rattle.panels.specs.Wall.{panels_of, table_of};
ghost use Rattle.panels.specs.WellFormed.{WellFormed};
ghost use Rattle.batch.specs.Scene.{scene_of, written_of};

use bursts::BurstList;
use packet::{Edition, LONGEST};
use panels::Table;

// What the output needs for each burst: the count byte, and any answer.
pub const ROOM_FOR_ONE: usize = 1 + LONGEST;

// Why a list was refused: it stops inside a burst, or the output has not room for each.
#[derive(Clone, Copy, Debug, PartialEq, Eq)]
pub enum Refusal {
    Cut,
    NoRoom,
}

// 02's number for a refusal.
impl From<Refusal> for u8 {
    ghost use Rattle.std.specs.Prelude.{◌≡◌, Some};
    ghost use Rattle.batch.specs.Scene.{refusal_number};

    ghost from_gives = { λ refusal number. number ≡ refusal_number (Some refusal) };

    fn from(refusal: Refusal) -> u8 {
        match refusal {
            Refusal::Cut => 32,
            Refusal::NoRoom => 33,
        }
    }
}

// A list of bursts played on a table, on a line of an edition, and how many bytes were written. On a refusal none was played, and
// table and output are as they were.
pub fn play_list(
    edition: Edition,
    t: &mut Table,
    list: &[u8],
    out: &mut [u8],
) -> Result<usize, Refusal>
    requires { WellFormed t.old }
    ensures value { result ≡ written_of (scene_of edition (panels_of t.old) list.now (length out.old)) }
    ensures table_after { t.new ≡ table_of (scene_of edition (panels_of t.old) list.now (length out.old)).wall }
    ensures out_after { out.new ≡ laid_over (scene_of edition (panels_of t.old) list.now (length out.old)).answers out.old }
{
    let Some(bursts) = BurstList::of(list) else {
        return Err(Refusal::Cut);
    };
    if out.len() / ROOM_FOR_ONE < bursts.len() {
        return Err(Refusal::NoRoom);
    }
    Ok(playing::play_all(edition, t, bursts, out))
}
