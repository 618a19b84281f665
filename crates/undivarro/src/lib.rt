// What the library for C exports (`undivarro_c`): a setup image read, a burst or a list of them played on it, and the setup written
// out again; or what can be kept of an image that the reader refuses.
#![tactic(auto)]

mod batching;
mod parts;
mod playing;

ghost use Rattle.std.specs.Prelude.{◌≡◌};
ghost use Rattle.undivarro.specs.Private.Refused.{outcome_of};
ghost use Rattle.undivarro.specs.Calls.{after_move, after_play_on, after_play, after_batch_on, after_batch, after_read, after_back, after_salvage};

use image_forms::Form;
use image_salvage::LINES_CAP;
use packet::{Edition, LONGEST, SICP_201};
use refusals::Refusal;

// What comes back: 0 or the refusal's number, the number of what was wrong with the burst, and how many bytes the answer and the
// image written have.
#[repr(C)]
#[derive(Clone, Copy)]
pub struct Outcome {
    pub refusal: u32,
    pub damage: u32,
    pub answered: usize,
    pub written: usize,
}

// What a call is refused by: the setup, what the form would lose, the room, the line's edition, or the list of bursts.
#[derive(Clone, Copy, Debug, PartialEq, Eq)]
enum Refused {
    Setup(Refusal),
    WouldLose,
    NoRoom,
    UnknownEdition,
    List(batch::Refusal),
}

// A setup image of either form read, and its table written in a form.
fn moved(form: Form, image: &[u8], out: &mut [u8]) -> Result<Outcome, Refused>
    ensures value { outcome_of result ≡ (after_move form image.now out.old).outcome }
    ensures out_after { out.new ≡ (after_move form image.now out.old).out }
{
    let table = image_read::read_image(image)?;
    if !image_write::loses_nothing(form, table) {
        return Err(Refused::WouldLose);
    }
    if !parts::has_room(form, table, 0, 0, out.len()) {
        return Err(Refused::NoRoom);
    }
    let written = parts::put_setup(form, table, out);
    Ok(Outcome {
        refusal: 0,
        damage: 0,
        answered: 0,
        written,
    })
}

// A burst played on a setup image of either form, on a line with this number.
fn play_on(
    number: u32,
    image: &[u8],
    burst: &[u8],
    answer: &mut [u8],
    out: &mut [u8],
) -> Result<Outcome, Refused>
    ensures value { outcome_of result ≡ (after_play_on number image.now burst.now answer.old out.old).outcome }
    ensures answer_after { answer.new ≡ (after_play_on number image.now burst.now answer.old out.old).answer }
    ensures out_after { out.new ≡ (after_play_on number image.now burst.now answer.old out.old).out }
{
    let table = image_read::read_image(image)?;
    if !parts::has_room(Form::Two, table, LONGEST, answer.len(), out.len()) {
        return Err(Refused::NoRoom);
    }
    let Ok(edition) = Edition::try_from(number) else {
        return Err(Refused::UnknownEdition);
    };
    Ok(playing::played(edition, table, burst, answer, out))
}

// A list of bursts played on a setup image of either form, on a line with this number.
fn batch_on(
    number: u32,
    image: &[u8],
    list: &[u8],
    answers: &mut [u8],
    out: &mut [u8],
) -> Result<Outcome, Refused>
    ensures value { outcome_of result ≡ (after_batch_on number image.now list.now answers.old out.old).outcome }
    ensures answers_after { answers.new ≡ (after_batch_on number image.now list.now answers.old out.old).answer }
    ensures out_after { out.new ≡ (after_batch_on number image.now list.now answers.old out.old).out }
{
    let table = image_read::read_image(image)?;
    if !parts::has_room(Form::Two, table, 0, answers.len(), out.len()) {
        return Err(Refused::NoRoom);
    }
    let Ok(edition) = Edition::try_from(number) else {
        return Err(Refused::UnknownEdition);
    };
    batching::played(edition, table, list, answers, out)
}

// What can be kept of a setup image of either form, and the lines of its faults.
fn salvaged(image: &[u8], lines: &mut [u8], out: &mut [u8]) -> Result<Outcome, Refused>
    ensures value { outcome_of result ≡ (after_salvage image.now lines.old out.old).outcome }
    ensures lines_after { lines.new ≡ (after_salvage image.now lines.old out.old).answer }
    ensures out_after { out.new ≡ (after_salvage image.now lines.old out.old).out }
{
    let mut text = [0u8; LINES_CAP];
    let kept = image_salvage::salvage(image, &mut text)?;
    let table = kept.table;
    if !parts::has_room(Form::Two, table, LINES_CAP, lines.len(), out.len()) {
        return Err(Refused::NoRoom);
    }
    let answered = kept.told;
    parts::put_text(&text, answered, lines);
    let written = parts::put_setup(Form::Two, table, out);
    Ok(Outcome {
        refusal: 0,
        damage: 0,
        answered,
        written,
    })
}

// A burst played on a setup image of either form, on a line opened with an edition's number: the answer, and the setup as it then is,
// in form 2, which holds every table.
pub fn undivarro_play_on(
    edition: u32,
    image: &[u8],
    burst: &[u8],
    answer: &mut [u8],
    out: &mut [u8],
) -> Outcome
    ensures value { result ≡ (after_play_on edition image.now burst.now answer.old out.old).outcome }
    ensures answer_after { answer.new ≡ (after_play_on edition image.now burst.now answer.old out.old).answer }
    ensures out_after { out.new ≡ (after_play_on edition image.now burst.now answer.old out.old).out }
{
    parts::outcome_of(play_on(edition, image, burst, answer, out))
}

// The same on a 2.01 line.
pub fn undivarro_play(image: &[u8], burst: &[u8], answer: &mut [u8], out: &mut [u8]) -> Outcome
    ensures value { result ≡ (after_play image.now burst.now answer.old out.old).outcome }
    ensures answer_after { answer.new ≡ (after_play image.now burst.now answer.old out.old).answer }
    ensures out_after { out.new ≡ (after_play image.now burst.now answer.old out.old).out }
{
    undivarro_play_on(SICP_201, image, burst, answer, out)
}

// A list of bursts played one after the other on a setup image of either form, on a line opened with an edition's number: for each
// the length of its answer and the answer, and the setup as it then is, in form 2.
pub fn undivarro_batch_on(
    edition: u32,
    image: &[u8],
    list: &[u8],
    answers: &mut [u8],
    out: &mut [u8],
) -> Outcome
    ensures value { result ≡ (after_batch_on edition image.now list.now answers.old out.old).outcome }
    ensures answers_after { answers.new ≡ (after_batch_on edition image.now list.now answers.old out.old).answer }
    ensures out_after { out.new ≡ (after_batch_on edition image.now list.now answers.old out.old).out }
{
    parts::outcome_of(batch_on(edition, image, list, answers, out))
}

// The same on a 2.01 line.
pub fn undivarro_batch(image: &[u8], list: &[u8], answers: &mut [u8], out: &mut [u8]) -> Outcome
    ensures value { result ≡ (after_batch image.now list.now answers.old out.old).outcome }
    ensures answers_after { answers.new ≡ (after_batch image.now list.now answers.old out.old).answer }
    ensures out_after { out.new ≡ (after_batch image.now list.now answers.old out.old).out }
{
    undivarro_batch_on(SICP_201, image, list, answers, out)
}

// A setup image of either form, written in form 2.
pub fn undivarro_read(image: &[u8], out: &mut [u8]) -> Outcome
    ensures value { result ≡ (after_read image.now out.old).outcome }
    ensures out_after { out.new ≡ (after_read image.now out.old).out }
{
    parts::outcome_of(moved(Form::Two, image, out))
}

// And written in form 1, for boxes that read no other: 31 where that would lose something.
pub fn undivarro_back(image: &[u8], out: &mut [u8]) -> Outcome
    ensures value { result ≡ (after_back image.now out.old).outcome }
    ensures out_after { out.new ≡ (after_back image.now out.old).out }
{
    parts::outcome_of(moved(Form::One, image, out))
}

// What can be kept of a setup image of either form that passes 11 to 15, in form 2, and the lines of its faults.
pub fn undivarro_salvage(image: &[u8], lines: &mut [u8], out: &mut [u8]) -> Outcome
    ensures value { result ≡ (after_salvage image.now lines.old out.old).outcome }
    ensures lines_after { lines.new ≡ (after_salvage image.now lines.old out.old).answer }
    ensures out_after { out.new ≡ (after_salvage image.now lines.old out.old).out }
{
    parts::outcome_of(salvaged(image, lines, out))
}
