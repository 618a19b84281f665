// What the answers of a QX panel say.
ghost use Rattle.std.specs.Prelude.{◌≡◌, Some};
ghost use Rattle.bursts.specs.Bursts.{bursts_in};
ghost use Rattle.bursts.specs.Left.{bursts_left};
ghost use Rattle.qx.specs.Asked.{codes_for};
ghost use Rattle.qx.specs.Replies.{value_says, said_to, replies_to, joined, heard_in};

use crate::message::{ANSWER, VALUE};
use crate::{Asked, NoAnswer, Reply, asking, message};
use bursts::BurstList;
use packet::MonitorId;

// What a value says in answer to a command code.
#[tactic(auto, unfolding(crate::specs::Replies::value_says))]
fn value_says(code: u8, value: u8) -> Result<Reply, NoAnswer>
    ensures { result ≡ value_says code value }
{
    match value {
        3 => Ok(Reply::Nack),
        4 => Ok(Reply::Nav),
        1 | 2 if code == asking::POWER_GET => Ok(Reply::Report(value)),
        0 if code != asking::POWER_GET => Ok(Reply::Ack),
        _ => Err(NoAnswer),
    }
}

// What one answer says to a packet with this command code.
fn said_to(id: MonitorId, code: u8, answer: &[u8]) -> Result<Reply, NoAnswer>
    ensures { result ≡ said_to id code answer.now }
{
    if answer.len() != ANSWER {
        return Err(NoAnswer);
    }
    let value = answer[VALUE];
    let right = message::answer_of(id, code, value);
    if answer != right.as_slice() {
        return Err(NoAnswer);
    }
    value_says(code, value)
}

// What the answers to these command codes say together: ACK where all do, else the first that is not.
fn hear_each(id: MonitorId, codes: &[u8], answers: BurstList) -> Result<Reply, NoAnswer>
    ensures { result ≡ joined (replies_to id codes.now (bursts_left answers.entry)) }
{
    let mut reply = Reply::Ack;
    for (code, answer) in codes.iter().zip(answers) {
        let next = said_to(id, *code, answer)?;
        if reply == Reply::Ack {
            reply = next;
        }
    }
    Ok(reply)
}

// What the answers in a list say to the packets of what was asked: one to each, and nothing behind them.
pub(crate) fn hear_all(id: MonitorId, asked: Asked, list: &[u8]) -> Option<Result<Reply, NoAnswer>>
    ensures { result ≡ heard_in id (codes_for (Some asked)) (bursts_in list.now) }
{
    let codes = asking::codes_of(asked);
    let answers = BurstList::of(list)?;
    if answers.len() != codes.len() {
        return None;
    }
    Some(hear_each(id, codes, answers))
}
