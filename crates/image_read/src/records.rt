// The records of an image of either form, one after the other: 16, the fields, and the panel behind the last.
ghost use Rattle.std.specs.Prelude.{◌≡◌, []};
ghost use Rattle.image_frame.specs.Frame.{form_of, records_in};
ghost use Rattle.image_record.specs.Head.{marked};
ghost use Rattle.image_read.specs.Read.{panel_in, read_records, in_table};

use crate::walk;
use image_forms::Form;
use image_frame::Frame;
use packet::{GroupId, MonitorId};
use panels::{ID_COUNT, MOST_PANELS, Panel, Table};
use refusals::Refusal;

// The panel of a record, behind others whose IDs are marked as seen.
fn panel_of(form: Form, bytes: &[u8], seen: &[bool; ID_COUNT]) -> Result<Panel, Refusal>
    ensures { result ≡ panel_in form (marked seen.now) bytes.now }
{
    let profile = image_record::head_in(form, bytes, seen).ok_or(Refusal::Record)?;
    let values = walk::fields_of(form, profile, &bytes[image_forms::head_size(form)..])?;
    Ok(Panel {
        id: MonitorId(bytes[0]),
        group: GroupId(bytes[1]),
        profile,
        values,
    })
}

// All records, in order.
pub fn all(frame: &Frame) -> Result<Table, Refusal>
    ensures { result ≡ in_table (read_records (form_of frame.now) [] (records_in frame.now)) }
{
    let form = frame.form();
    let count = frame.count();
    let blank = panels::blank_panel();
    let mut places = [blank; MOST_PANELS];
    let mut seen = [false; ID_COUNT];
    for k in 0..count {
        let panel = panel_of(form, frame.record(k), &seen)?;
        seen[panel.id.0 as usize] = true;
        places[k] = panel;
    }
    Ok(panels::table_of(places, count))
}
