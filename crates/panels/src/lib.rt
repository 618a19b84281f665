// The panels of a line: a panel, the table of them, and who is addressed.
#![tactic(auto)]

ghost use Rattle.std.specs.Prelude.{◌≡◌, [], ◌≤◌, length, get_or, take};
ghost use Rattle.panels.specs.Wall.{most_panels, blank, in_places, table_of, panels_of, place_of, video_of};
ghost use Rattle.panels.specs.Addressed.{reaches};
ghost use Rattle.panels.specs.WellFormed.{WellFormed};

use packet::{GroupId, MonitorId};
use profiles::Video;
use settings::{Profile, VALUE_COUNT};

// How many panels a table has places for.
pub const MOST_PANELS: usize = 32;

// How many IDs there are.
pub const ID_COUNT: usize = 256;

// How many groups there are.
pub const GROUP_COUNT: usize = 256;

// What the index has for an ID that no panel has. An Option in each of 256 places would double the index in a table's fixed
// memory.
const NOWHERE: u8 = MOST_PANELS as u8;

#[derive(Clone, Copy)]
pub struct Panel {
    pub id: MonitorId,
    pub group: GroupId,
    pub profile: Profile,
    pub values: [u8; VALUE_COUNT],
}

// The panels in their places, and the index: the place of each ID, which is MOST_PANELS where no panel has it, and how many
// panels each group has. Its panels are an array with a count, since a library has no heap. A table that is passed on is copied,
// so who holds one looks at its places and its index in it.
#[derive(Clone, Copy)]
pub struct Table {
    pub panels: [Panel; MOST_PANELS],
    pub places: [u8; ID_COUNT],
    pub members: [u8; GROUP_COUNT],
    count: usize,
}

// What stands in a place that no panel has.
#[tactic(auto, unfolding(crate::specs::Wall::blank))]
pub fn blank_panel() -> Panel
    ensures { result ≡ blank }
{
    Panel {
        id: MonitorId(0),
        group: GroupId(0),
        profile: Profile::General,
        values: [0u8; VALUE_COUNT],
    }
}

pub fn empty_table() -> Table
    ensures { result ≡ table_of [] }
{
    let p = blank_panel();
    Table {
        panels: [p; MOST_PANELS],
        places: [NOWHERE; ID_COUNT],
        members: [0; GROUP_COUNT],
        count: 0,
    }
}

// How many panels a table has.
#[tactic(auto, using(crate::proofs::Laws::count_is))]
pub fn count_of(t: Table) -> usize
    requires { WellFormed t }
    ensures { result ≡ length (panels_of t) }
{
    t.count
}

// The panel at place k; where no panel is, what stands there.
pub fn panel_at(t: Table, k: usize) -> Panel
    requires { WellFormed t }
    ensures { result ≡ get_or (panels_of t) k blank }
{
    if MOST_PANELS <= k {
        return blank_panel();
    }
    t.panels[k]
}

// All panels of a table, and the blanks behind them.
#[tactic(auto, using(crate::proofs::Laws::held_places))]
pub fn panels_of(t: Table) -> [Panel; MOST_PANELS]
    requires { WellFormed t }
    ensures { result ≡ in_places (panels_of t) }
{
    t.panels
}

// The table of the panels in the first of some places, behind which all are blank. Its index is made from the last panel to the
// first, so that of two with one ID it has the first.
pub fn table_of(panels: [Panel; MOST_PANELS], count: usize) -> Table
    requires { (count ≤ most_panels) × (panels ≡ in_places (take count panels)) }
    ensures { result ≡ table_of (take count panels) }
{
    let mut places = [NOWHERE; ID_COUNT];
    let mut members = [0u8; GROUP_COUNT];
    for k in (0..count).rev() {
        let p = panels[k];
        places[p.id.0 as usize] = k as u8;
        members[p.group.0 as usize] += 1;
    }
    Table {
        panels,
        places,
        members,
        count,
    }
}

// The place of the panel with an ID, if one has it.
pub fn place_of(t: Table, id: MonitorId) -> Option<usize>
    requires { WellFormed t }
    ensures { result ≡ place_of id (panels_of t) }
{
    let k = t.places[id.0 as usize] as usize;
    if k < MOST_PANELS { Some(k) } else { None }
}

// Whether a packet with this ID and group addresses a panel.
#[tactic(auto, unfolding(crate::specs::Addressed::reaches))]
pub fn reaches(id: MonitorId, group: GroupId, p: Panel) -> bool
    ensures { result ≡ reaches id group p }
{
    if group.0 == 0 {
        return id.0 == 0 || p.id == id;
    }
    group.0 != 255 && p.group == group
}

// A Phoenix panel's video as a caller sees it, with the tint's sign.
pub fn video_of(p: Panel) -> Option<Video>
    ensures { result ≡ video_of p }
{
    let Profile::Phoenix = p.profile else {
        return None;
    };
    let v = p.values;
    Some(profiles::video_in([v[6], v[7], v[8], v[9], v[10], v[11], v[12]]))
}
