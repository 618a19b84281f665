// What can be kept of a setup image that the reader refuses, and the lines that tell what could not.
#![tactic(auto)]

mod fields;
mod records;

ghost use Rattle.std.specs.Prelude.{◌≡◌};
ghost use Rattle.lists.specs.Lists.{laid_over};
ghost use Rattle.image_salvage.specs.Salvaged.{salvage_of, text_of, salvaged_as};

use image_faults::LONGEST_LINE;
use image_frame::Frame;
use panels::{MOST_PANELS, Panel, Table};
use refusals::Refusal;
use settings::{ROW_COUNT, VALUE_COUNT};

// The faults that a record can have: each row's field is met once, and then one is broken.
pub const MOST_FAULTS: usize = ROW_COUNT + 1;

// Room for the lines of any image.
pub const LINES_CAP: usize = MOST_PANELS * MOST_FAULTS * LONGEST_LINE;

// The table that is kept, and how many bytes of text its lines have.
#[derive(Clone, Copy)]
pub struct Salvaged {
    pub table: Table,
    pub told: usize,
}

// What is kept of a record's fields, and where the next line begins. The place is handed on: the text lies in the caller's array,
// since nothing here is allocated.
#[derive(Clone, Copy)]
struct KeptFields {
    values: [u8; VALUE_COUNT],
    next: usize,
}

// What is kept of a record, if anything, and where the next line begins.
#[derive(Clone, Copy)]
struct KeptRecord {
    panel: Option<Panel>,
    next: usize,
}

// What can be kept of an image that passes 11 to 15, with the text of its lines at the front of lines; or why the image as a whole
// is refused, and then there is no text.
pub fn salvage(image: &[u8], lines: &mut [u8; LINES_CAP]) -> Result<Salvaged, Refusal>
    ensures value { result ≡ salvaged_as image.now }
    ensures lines_after { lines.new ≡ laid_over (text_of (salvage_of image.now)) lines.old }
{
    let frame = Frame::of(image)?;
    Ok(records::all(&frame, lines))
}
