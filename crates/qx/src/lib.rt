// A request for a QX panel: the packets that it becomes, and what the answers to them say.
#![tactic(auto)]

mod asking;
mod hearing;
mod message;
mod writing;

ghost use Rattle.std.specs.Prelude.{◌≡◌, length, Err};
ghost use Rattle.qx.specs.Translation.{refusal_number, translated, translated_over};
ghost use Rattle.qx.specs.Replies.{reply_number, heard_by};

use packet::{Edition, LONGEST};
use refusals::NO_ROOM;
use requests::Request;

// The most packets that a request becomes.
pub const MOST_PACKETS: usize = 3;

// What a request asks of a QX panel.
#[derive(Clone, Copy, Debug, PartialEq, Eq)]
enum Asked {
    GetPower,
    SetPower(u8),
    SetPicture(u8, u8, u8),
}

// Why a request has no packets.
#[derive(Clone, Copy, Debug, PartialEq, Eq)]
pub enum Refusal {
    NoRoom,
    NotARequest,
    NotCarried,
}

// How many packets a request became, and the size of each; zeros behind them, since there is no heap.
#[derive(Clone, Copy, Debug, PartialEq, Eq)]
pub struct Packets {
    pub count: usize,
    pub sizes: [usize; MOST_PACKETS],
}

// What an answer says, or all of a request's answers say.
#[derive(Clone, Copy, Debug, PartialEq, Eq)]
pub enum Reply {
    Ack,
    Nack,
    Nav,
    Report(u8),
}

// An answer is none of the panel's.
#[derive(Clone, Copy, Debug, PartialEq, Eq)]
pub struct NoAnswer;

// The paper's number for a refusal.
impl From<Refusal> for u8 {
    ghost from_gives = { λ refusal number. number ≡ refusal_number refusal };

    fn from(refusal: Refusal) -> u8 {
        match refusal {
            Refusal::NoRoom => NO_ROOM,
            Refusal::NotARequest => 22,
            Refusal::NotCarried => 34,
        }
    }
}

// The paper's number for an answer that is none.
impl From<NoAnswer> for u8 {
    ghost from_gives = { λ wrong number. number ≡ reply_number (Err wrong) };

    fn from(_wrong: NoAnswer) -> u8 {
        35
    }
}

// A request's packets, one behind the other at the front of out, of which the rest stays as it was.
pub fn translate(request: Request, out: &mut [u8]) -> Result<Packets, Refusal>
    ensures value { result ≡ translated (length out.old) request }
    ensures out_after { out.new ≡ translated_over out.old request }
{
    if out.len() < LONGEST {
        return Err(Refusal::NoRoom);
    }
    if !requests::is_request(Edition::Sicp201, request) {
        return Err(Refusal::NotARequest);
    }
    let asked = asking::asked_of(request).ok_or(Refusal::NotCarried)?;
    writing::put_all(request.id, asked, out);
    Ok(writing::told(asked))
}

// What the answers to a request's packets say, where there is one to each. They stand one behind the other, each behind its length.
#[tactic(auto, unfolding(crate::specs::Replies::heard_by, crate::specs::Replies::heard_in, crate::specs::Asked::codes_for, crate::specs::Asked::data_for))]
pub fn hear(request: Request, answers: &[u8]) -> Option<Result<Reply, NoAnswer>>
    ensures { result ≡ heard_by request answers.now }
{
    let asked = asking::asked_of(request)?;
    hearing::hear_all(request.id, asked, answers)
}
