// The answer to a burst, and an answer written out.
#![tactic(auto)]

mod answering;
mod judging;
mod playing;
mod turning;

pub use answering::write_answer;
pub use judging::{is_stored, with_values};
use packet::{Control, Damage, GroupId, MonitorId};
use panels::{Panel, Table};
pub use playing::{answered_on, hear, hear_on, play, store};
use settings::{MOST_VALUES, Row};
pub use turning::names_in;

// A report's data at its longest: the get code, and the values of the largest row.
pub const MOST_REPORTED: usize = MOST_VALUES + 1;

// How many profiles there are, so that each has a place by its number.
pub const PROFILE_COUNT: usize = 2;

// How many values a tiling has.
const TILING_COUNT: usize = 4;

// Silence, a control word, or a report, whose bytes stand beside it.
#[derive(Clone, Copy)]
pub enum Answer {
    Silence,
    Word(Control),
    Report,
}

// A control word or a report from the panel with an ID. A report's bytes stand in an array with their count beside, since there is no
// heap and a reply is copied.
#[derive(Clone, Copy)]
pub struct Reply {
    pub answer: Answer,
    pub id: MonitorId,
    pub bytes: [u8; MOST_REPORTED],
    pub count: usize,
}

// What a packet asks of every addressed panel: a report of a row, its values to be stored in a row if the panel takes them,
// or nothing that is available. It is no Option of a code, which each use would have to match in two steps.
#[derive(Clone, Copy)]
enum Order {
    Report(Row),
    Store(Row),
    NotAvailable,
}

// Whom a burst names: an ID and a group. No panel has ID 0.
#[derive(Clone, Copy)]
pub struct Names {
    pub id: MonitorId,
    pub group: GroupId,
}

// What a table has of an ID and a group: how many panels there are, how many of them are in the group, and the place of the one
// with the ID, which is MOST_PANELS where there is none, with the panel there.
#[derive(Clone, Copy)]
pub struct Entry {
    pub count: usize,
    pub members: usize,
    pub at: usize,
    pub panel: Panel,
}

// Places from the first on, up to the end; std's Range is not copied, as a change is.
#[derive(Clone, Copy)]
pub struct Span {
    pub first: usize,
    pub end: usize,
}

// A set as it goes to the panels in some places: for each profile, by its number, whether its ranges allow the values.
#[derive(Clone, Copy)]
pub struct Change {
    pub names: Names,
    pub row: Row,
    pub allowed: [bool; PROFILE_COUNT],
    pub span: Span,
}

// What a burst comes to: the reply, and what it changes, if anything.
#[derive(Clone, Copy)]
pub struct Turn {
    pub reply: Reply,
    pub change: Option<Change>,
}

// How many bytes were sent in answer to a burst, and what it changes, if anything.
#[derive(Clone, Copy)]
pub struct Heard {
    pub sent: usize,
    pub change: Option<Change>,
}

// The table after a burst, the reply to it, and what was wrong with it.
#[derive(Clone, Copy)]
pub struct Played {
    pub table: Table,
    pub reply: Reply,
    pub damage: Option<Damage>,
}
