// A burst played on the table.
ghost use Rattle.std.specs.Prelude.{◌≡◌, map, ◌≤◌, length};
ghost use Rattle.packet.specs.Reading.{reading_in, reading_of};
ghost use Rattle.panels.specs.Wall.{table_of, panels_of};
ghost use Rattle.panels.specs.WellFormed.{WellFormed};
ghost use Rattle.lists.specs.Lists.{laid_over};
ghost use Rattle.packet.specs.Packet.{longest};
ghost use Rattle.answers.specs.Reply.{sent_bytes};
ghost use Rattle.answers.specs.Turn.{entry_of, turn_by, turn_on, heard_as, turned_by, Fits};
ghost use Rattle.answers.specs.Played.{answered_on};

use crate::{Change, Entry, Heard, Names, Played, answering, judging, turning};
use packet::{Edition, Reading};
use panels::{MOST_PANELS, Table};

// What a table has of the names in a burst.
fn entry_of(t: &Table, names: Names) -> Entry
    requires { WellFormed t.now }
    ensures { result ≡ entry_of (panels_of t.now) names }
{
    let at = t.places[names.id.0 as usize] as usize;
    Entry {
        count: panels::count_of(*t),
        members: t.members[names.group.0 as usize] as usize,
        at,
        panel: t.panels[at % MOST_PANELS],
    }
}

// The values stored in every panel, among these places, that is addressed and takes them. The others would not change.
pub fn store(t: &mut Table, change: Change, d: &[u8])
    requires { WellFormed t.old × Fits change d.now (panels_of t.old) }
    ensures { t.new ≡ table_of (map (turned_by change d.now) (panels_of t.old)) }
{
    let row = change.row;
    for p in &mut t.panels[change.span.first..change.span.end] {
        if judging::is_stored(*p, change.names, row.index(), change.allowed, d) {
            *p = judging::with_values(*p, row, d);
        }
    }
}

// What a burst comes to, by what a table has of its names, with its answer written out on a line of an edition.
pub fn hear(edition: Edition, entry: Entry, reading: Reading, out: &mut [u8]) -> Heard
    requires { longest ≤ length out.old }
    ensures value { (result ≡ heard_as edition (turn_by entry reading.entry.verdict reading.entry.data.now reading.entry.seems)) × (result.sent ≤ longest) }
    ensures out_after { out.new ≡ laid_over (sent_bytes edition (turn_by entry reading.entry.verdict reading.entry.data.now reading.entry.seems).reply) out.old }
{
    let turn = turning::turn_of(entry, reading);
    let sent = answering::put_answer(edition, turn.reply, out);
    let change = turn.change;
    Heard { sent, change }
}

// The same on a table.
pub fn hear_on(edition: Edition, t: &Table, reading: Reading, out: &mut [u8]) -> Heard
    requires { WellFormed t.now × (longest ≤ length out.old) }
    ensures value { (result ≡ heard_as edition (turn_on (panels_of t.now) reading.entry.verdict reading.entry.data.now reading.entry.seems)) × (result.sent ≤ longest) }
    ensures out_after { out.new ≡ laid_over (sent_bytes edition (turn_on (panels_of t.now) reading.entry.verdict reading.entry.data.now reading.entry.seems).reply) out.old }
{
    let entry = entry_of(t, turning::names_in(reading));
    hear(edition, entry, reading, out)
}

// The answer to what was read of a burst.
pub fn answered_on(mut t: Table, reading: Reading) -> Played
    requires { WellFormed t }
    ensures { result ≡ answered_on t (reading_in reading.entry) }
{
    let entry = entry_of(&t, turning::names_in(reading));
    let turn = turning::turn_of(entry, reading);
    if let Some(change) = &turn.change {
        store(&mut t, *change, reading.data);
    }
    Played {
        table: t,
        reply: turn.reply,
        damage: reading.verdict.damage(),
    }
}

// A whole burst, heard on a line of an edition.
pub fn play(edition: Edition, t: Table, burst: &[u8]) -> Played
    requires { WellFormed t }
    ensures { result ≡ answered_on t (reading_of edition burst.now) }
{
    answered_on(t, packet::read(edition, burst))
}
