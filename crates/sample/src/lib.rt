// What the programs over the box share: the sample wall of panels 1 and 2, both in group 9, and bytes as they print them.
#![tactic(auto)]

ghost use Rattle.std.specs.Prelude.{◌≡◌, Some};
ghost use Rattle.panels.specs.Wall.{table_of};
ghost use Rattle.panels.specs.WellFormed.{WellFormed};
ghost use Rattle.answers.specs.Sample.{two_panels};
ghost use Rattle.answers.specs.Reply.{sent_bytes};
ghost use Rattle.answers.specs.Played.{played};
ghost use Rattle.sample.specs.Shown.{shown_of, shown_count, shown_over};

use answers::Reply;
use packet::{Edition, GroupId, LONGEST, MonitorId};
use panels::Table;
use std::fmt;
use text::Digits;

pub fn two_panels() -> Table
    ensures { (result ≡ table_of two_panels) × WellFormed result }
{
    let mut wall = panels::empty_table();
    table_calls::add(&mut wall, MonitorId(1), GroupId(9), 0, 0).unwrap();
    table_calls::add(&mut wall, MonitorId(2), GroupId(9), 0, 0).unwrap();
    wall
}

// The reply of the sample wall, fresh, to a burst on a line of an edition.
#[tactic(auto, using(panels::proofs::Laws::panels_of_table))]
pub fn reply_to(edition: Edition, burst: &[u8]) -> Reply
    ensures { result ≡ (played edition two_panels burst.now).reply }
{
    let played = answers::play(edition, two_panels(), burst);
    played.reply
}

// Its reply to the burst the second time.
#[tactic(auto, using(panels::proofs::Laws::panels_of_table, answers::proofs::Formed::answered_formed))]
pub fn reply_again(edition: Edition, burst: &[u8]) -> Reply
    ensures { result ≡ (played edition (played edition two_panels burst.now).wall burst.now).reply }
{
    let first = answers::play(edition, two_panels(), burst);
    let second = answers::play(edition, first.table, burst);
    second.reply
}

// Bytes that print in upper-case hex, or as a dash where there are none.
#[derive(Clone, Copy)]
pub struct Bytes<'a>(pub &'a [u8]);

impl fmt::Display for Bytes<'_> {
    ghost output = { λ bytes. Some (shown_of bytes.0.now) };

    #[tactic(auto, using(std::proofs::lemmas::Bool::Decides::nat_tests))]
    fn fmt<W: fmt::Write>(&self, f: &mut fmt::Formatter<W>) -> fmt::Result {
        if self.0.is_empty() {
            return f.write_str("-");
        }
        f.write(Digits(self.0))
    }
}

// A reply on a line of an edition, which prints as the bytes that go out for it.
#[derive(Clone, Copy)]
pub struct Answer(pub Edition, pub Reply);

impl fmt::Display for Answer {
    ghost output = { λ answer. Some (shown_of (sent_bytes answer.0 answer.1)) };

    fn fmt<W: fmt::Write>(&self, f: &mut fmt::Formatter<W>) -> fmt::Result {
        let mut packet = [0u8; LONGEST];
        let sent = answers::write_answer(self.0, self.1, &mut packet);
        let Some(n) = sent else {
            unreachable!();
        };
        f.write(Bytes(text::front(&packet, n)))
    }
}

// Bytes in upper-case hex, or a dash where there are none, at the front of out; answers how many characters.
pub fn shown(bytes: &[u8], out: &mut [u8]) -> usize
    ensures value { result ≡ shown_count bytes.now out.old }
    ensures out_after { out.new ≡ shown_over bytes.now out.old }
{
    if bytes.len() != 0 {
        return text::hex(bytes, out);
    }
    if out.len() == 0 {
        return 0;
    }
    out[0] = b'-';
    1
}

// The bytes that go out for a reply on a line of an edition, shown.
pub fn shown_answer(edition: Edition, reply: Reply, out: &mut [u8]) -> usize
    ensures value { result ≡ shown_count (sent_bytes edition reply) out.old }
    ensures out_after { out.new ≡ shown_over (sent_bytes edition reply) out.old }
{
    let mut packet = [0u8; LONGEST];
    let sent = answers::write_answer(edition, reply, &mut packet);
    let Some(n) = sent else {
        return 0;
    };
    shown(text::front(&packet, n), out)
}
