// The library for C: each export is the function of its name of `undivarro`, with that function's promise.
#![tactic(auto)]

ghost use Rattle.std.specs.Prelude.{◌≡◌};
ghost use Rattle.undivarro.specs.Calls.{after_play_on, after_play, after_batch_on, after_batch, after_read, after_back, after_salvage};

use undivarro::Outcome;

// A burst played on a setup image of either form, on a line opened with an edition's number: the answer, and the setup as it then is,
// in form 2, which holds every table.
#[unsafe(no_mangle)]
pub extern "C" fn undivarro_play_on(
    edition: u32,
    image: &[u8],
    burst: &[u8],
    answer: &mut [u8],
    out: &mut [u8],
) -> Outcome
    ensures value { result ≡ (after_play_on edition image.now burst.now answer.old out.old).outcome }
    ensures answer_after { answer.new ≡ (after_play_on edition image.now burst.now answer.old out.old).answer }
    ensures out_after { out.new ≡ (after_play_on edition image.now burst.now answer.old out.old).out }
{
    undivarro::undivarro_play_on(edition, image, burst, answer, out)
}

// The same on a 2.01 line.
#[unsafe(no_mangle)]
pub extern "C" fn undivarro_play(
    image: &[u8],
    burst: &[u8],
    answer: &mut [u8],
    out: &mut [u8],
) -> Outcome
    ensures value { result ≡ (after_play image.now burst.now answer.old out.old).outcome }
    ensures answer_after { answer.new ≡ (after_play image.now burst.now answer.old out.old).answer }
    ensures out_after { out.new ≡ (after_play image.now burst.now answer.old out.old).out }
{
    undivarro::undivarro_play(image, burst, answer, out)
}

// A list of bursts played one after the other on a setup image of either form, on a line opened with an edition's number: for each
// the length of its answer and the answer, and the setup as it then is, in form 2.
#[unsafe(no_mangle)]
pub extern "C" fn undivarro_batch_on(
    edition: u32,
    image: &[u8],
    list: &[u8],
    answers: &mut [u8],
    out: &mut [u8],
) -> Outcome
    ensures value { result ≡ (after_batch_on edition image.now list.now answers.old out.old).outcome }
    ensures answers_after { answers.new ≡ (after_batch_on edition image.now list.now answers.old out.old).answer }
    ensures out_after { out.new ≡ (after_batch_on edition image.now list.now answers.old out.old).out }
{
    undivarro::undivarro_batch_on(edition, image, list, answers, out)
}

// The same on a 2.01 line.
#[unsafe(no_mangle)]
pub extern "C" fn undivarro_batch(
    image: &[u8],
    list: &[u8],
    answers: &mut [u8],
    out: &mut [u8],
) -> Outcome
    ensures value { result ≡ (after_batch image.now list.now answers.old out.old).outcome }
    ensures answers_after { answers.new ≡ (after_batch image.now list.now answers.old out.old).answer }
    ensures out_after { out.new ≡ (after_batch image.now list.now answers.old out.old).out }
{
    undivarro::undivarro_batch(image, list, answers, out)
}

// A setup image of either form, written in form 2.
#[unsafe(no_mangle)]
pub extern "C" fn undivarro_read(image: &[u8], out: &mut [u8]) -> Outcome
    ensures value { result ≡ (after_read image.now out.old).outcome }
    ensures out_after { out.new ≡ (after_read image.now out.old).out }
{
    undivarro::undivarro_read(image, out)
}

// And written in form 1, for boxes that read no other: 31 where that would lose something.
#[unsafe(no_mangle)]
pub extern "C" fn undivarro_back(image: &[u8], out: &mut [u8]) -> Outcome
    ensures value { result ≡ (after_back image.now out.old).outcome }
    ensures out_after { out.new ≡ (after_back image.now out.old).out }
{
    undivarro::undivarro_back(image, out)
}

// What can be kept of a setup image of either form that passes 11 to 15, in form 2, and the lines of its faults.
#[unsafe(no_mangle)]
pub extern "C" fn undivarro_salvage(image: &[u8], lines: &mut [u8], out: &mut [u8]) -> Outcome
    ensures value { result ≡ (after_salvage image.now lines.old out.old).outcome }
    ensures lines_after { lines.new ≡ (after_salvage image.now lines.old out.old).answer }
    ensures out_after { out.new ≡ (after_salvage image.now lines.old out.old).out }
{
    undivarro::undivarro_salvage(image, lines, out)
}
