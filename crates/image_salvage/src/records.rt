// The records of an image that is sound as a whole, one after the other: dropped, or kept as a panel behind the last.
ghost use Rattle.std.specs.Prelude.{◌≡◌, ◌+◌, ◌*◌, ◌≤◌, length};
ghost use Rattle.lists.specs.Lists.{laid_at, laid_over};
ghost use Rattle.image_faults.specs.Lines.{longest_line};
ghost use Rattle.image_salvage.specs.Kept.{most_faults};
ghost use Rattle.image_salvage.specs.Salvaged.{lines_of, salvage_in, text_of, told_as};
ghost use Rattle.image_salvage.specs.Private.Marked.{record_by, faults_by};

use crate::{KeptRecord, LINES_CAP, Salvaged, fields};
use image_faults::Fault;
use image_forms::Form;
use image_frame::Frame;
use packet::{GroupId, MonitorId};
use panels::{ID_COUNT, MOST_PANELS, Panel};

// What is kept of the record with this number, behind others whose IDs are marked as seen; its faults are told from a place of
// the text on.
fn record(
    form: Form,
    number: u8,
    bytes: &[u8],
    seen: &[bool; ID_COUNT],
    lines: &mut [u8],
    from: usize,
) -> KeptRecord
    requires { from + most_faults * longest_line ≤ length lines.old }
    ensures value { result ≡ record_by form number from seen.now bytes.now }
    ensures lines_after { lines.new ≡ laid_at from (lines_of number (faults_by form seen.now bytes.now)) lines.old }
{
    let Some(profile) = image_record::head_in(form, bytes, seen) else {
        let next = fields::tell(number, Fault::Dropped, lines, from);
        return KeptRecord { panel: None, next };
    };
    let behind = &bytes[image_forms::head_size(form)..];
    let fields = fields::kept(form, profile, number, behind, lines, from);
    let values = fields.values;
    let panel = Panel {
        id: MonitorId(bytes[0]),
        group: GroupId(bytes[1]),
        profile,
        values,
    };
    KeptRecord {
        panel: Some(panel),
        next: fields.next,
    }
}

// All records, in order.
pub fn all(frame: &Frame, lines: &mut [u8; LINES_CAP]) -> Salvaged
    ensures value { result ≡ told_as (salvage_in frame.now) }
    ensures lines_after { lines.new ≡ laid_over (text_of (salvage_in frame.now)) lines.old }
{
    let form = frame.form();
    let count = frame.count();
    let blank = panels::blank_panel();
    let mut places = [blank; MOST_PANELS];
    let mut kept = 0;
    let mut seen = [false; ID_COUNT];
    let mut told = 0;
    for k in 0..count {
        let record = record(form, k as u8 + 1, frame.record(k), &seen, lines, told);
        told = record.next;
        if let Some(panel) = record.panel {
            seen[panel.id.0 as usize] = true;
            places[kept] = panel;
            kept += 1;
        }
    }
    let table = panels::table_of(places, kept);
    Salvaged { table, told }
}
