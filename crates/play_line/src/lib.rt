// What the programs play and repeater share: the bursts of standard input, played on the sample wall through a receiver of a 2.01
// line. Standard input has for each burst a count byte and then that many bytes; each answer is printed behind its burst's number.
#![tactic(auto)]

ghost use Rattle.std.specs.Prelude.{◌≡◌, IfOk};
ghost use Rattle.packet.specs.declared.Edition.{Edition};
ghost use Rattle.packet.specs.Reading.{reading_of};
ghost use Rattle.panels.specs.WellFormed.{WellFormed};
ghost use Rattle.answers.specs.Played.{answered_on};
ghost use Rattle.play_line.specs.Played.{table_after, Ends};

use line::{Heard, LineReceiver};
use packet::Edition;
use panels::Table;
use sample::Answer;
use std::io;

// The receiver of a line, and the table that it plays on.
#[derive(Clone, Copy)]
struct Line<R> {
    receiver: R,
    table: Table,
}

// The bytes of a burst, and a quiet mark.
fn hear<R: LineReceiver>(line: Line<R>, burst: &[u8]) -> Heard<R>
    requires { WellFormed line.table × R.is_open line.receiver }
    ensures table { result.table ≡ table_after line.table burst.now }
    ensures reply { result.reply ≡ (answered_on line.table (reading_of Edition.Sicp201 burst.now)).reply }
    ensures open { WellFormed result.table × R.is_open result.receiver }
{
    line.receiver.bytes(burst).quiet(line.table)
}

// Plays one burst. Prints its number, a space, and the answer.
fn answer<R: LineReceiver>(
    rt: &impl Print,
    line: Line<R>,
    number: u64,
    burst: &[u8],
) -> io::Result<Line<R>>
    requires { WellFormed line.table × R.is_open line.receiver }
    ensures table { IfOk result (λ after. after.table ≡ table_after line.table burst.now) }
    ensures open { IfOk result (λ after. WellFormed after.table × R.is_open after.receiver) }
{
    let heard = hear(line, burst);
    let answer = Answer(Edition::Sicp201, heard.reply);
    println!(rt; "{number} {answer}")?;
    Ok(Line {
        receiver: heard.receiver,
        table: heard.table,
    })
}

// Plays to the end of the input through a receiver that is opened for it, and hands out the table.
pub fn run<R: LineReceiver>(rt: &(impl Print + Input)) -> io::Result<Table>
    ensures { IfOk result Ends }
{
    let line = Line {
        receiver: R::open_201(),
        table: sample::two_panels(),
    };
    let last = text::each_step(rt, line, |line, number, burst| {
        answer(rt, line, number, burst)
    })?;
    Ok(last.table)
}
