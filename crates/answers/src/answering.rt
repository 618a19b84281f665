// Replies, and a reply written out.
ghost use Rattle.std.specs.Prelude.{◌≡◌, ◌+◌, ◌≤◌, length};
ghost use Rattle.packet.specs.Packet.{group_id, packet_of, shortest, longest, most_data};
ghost use Rattle.lists.specs.Lists.{laid_over};
ghost use Rattle.answers.specs.Reply.{silence, word_from, sent_bytes, sent_of, output_of};

use crate::{Answer, MOST_REPORTED, Reply};
use packet::{Control, Edition, GroupId, LONGEST, MonitorId};

pub fn silence() -> Reply
    ensures { result ≡ silence }
{
    Reply {
        answer: Answer::Silence,
        id: MonitorId(0),
        bytes: [0u8; MOST_REPORTED],
        count: 0,
    }
}

pub fn word_from(id: MonitorId, word: Control) -> Reply
    ensures { result ≡ word_from id word }
{
    Reply {
        answer: Answer::Word(word),
        id,
        bytes: [0u8; MOST_REPORTED],
        count: 0,
    }
}

fn send(edition: Edition, out: &mut [u8], id: MonitorId, d: &[u8]) -> Option<usize>
    requires { (longest ≤ length out.old) × (length d.now ≤ most_data edition) }
    ensures value { result ≡ Some (length d.now + shortest edition) }
    ensures out_after { out.new ≡ laid_over (packet_of edition id (group_id 0) d.now) out.old }
{
    match packet::write_packet(edition, out, id, GroupId(0), d) {
        Ok(n) => Some(n),
        Err(_) => None,
    }
}

// The packet that goes out on a line of an edition, at the front of an output with room for any packet, of which the rest stays as it was:
// how many bytes it has; none is written where there is no room.
pub fn write_answer(edition: Edition, reply: Reply, out: &mut [u8]) -> Option<usize>
    ensures value { result ≡ sent_of edition out.old reply }
    ensures out_after { out.new ≡ output_of edition out.old reply }
{
    if out.len() < LONGEST {
        return None;
    }
    let answer = reply.answer;
    let id = reply.id;
    match answer {
        Answer::Silence => Some(0),
        Answer::Word(word) => {
            let d = [0u8, word.into()];
            send(edition, out, id, &d)
        }
        Answer::Report => {
            let bytes = reply.bytes;
            let n = reply.count;
            if MOST_REPORTED < n {
                return send(edition, out, id, &bytes);
            }
            send(edition, out, id, &bytes[..n])
        }
    }
}

// The same into an output that has the room, and its length.
pub(crate) fn put_answer(edition: Edition, reply: Reply, out: &mut [u8]) -> usize
    requires { longest ≤ length out.old }
    ensures value { (result ≡ length (sent_bytes edition reply)) × (result ≤ longest) }
    ensures out_after { out.new ≡ laid_over (sent_bytes edition reply) out.old }
{
    let sent = write_answer(edition, reply, out);
    match sent {
        Some(n) => n,
        None => 0,
    }
}
