// The setup image read: the table that it holds, or the first refusal.
#![tactic(auto)]

mod records;
mod walk;

ghost use Rattle.std.specs.Prelude.{◌≡◌};
ghost use Rattle.image_read.specs.Read.{read_of, in_table};

use image_frame::Frame;
use panels::Table;
use refusals::Refusal;

// The table that an image holds, or the first refusal.
pub fn read_image(image: &[u8]) -> Result<Table, Refusal>
    ensures { result ≡ in_table (read_of image.now) }
{
    let frame = Frame::of(image)?;
    records::all(&frame)
}
