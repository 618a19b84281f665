// What a burst comes to: the reply, and what changes in which places. It goes by what the table has of the names in the burst.
ghost use Rattle.std.specs.Prelude.{◌≡◌, drop};
ghost use Rattle.answers.specs.Judged.{command, reply_by, judge};
ghost use Rattle.answers.specs.Turn.{names_in, span_of, change_of, reply_to, nack_to, turn_by};
ghost use Rattle.answers.specs.Private.Orders.{order_of, allowed_in};

use crate::{Change, Entry, Names, Order, PROFILE_COUNT, Reply, Span, Turn, answering, judging};
use packet::{Control, GroupId, MonitorId, Reading, Verdict};
use panels::{MOST_PANELS, Panel};

// A damaged burst names the panel that it seems to be for.
pub fn names_in(reading: Reading) -> Names
    ensures { result ≡ names_in reading.entry.verdict reading.entry.seems }
{
    let nobody = Names {
        id: MonitorId(0),
        group: GroupId(0),
    };
    match reading.verdict {
        Verdict::Empty => nobody,
        Verdict::Damaged(_) => match reading.seems {
            None => nobody,
            Some(id) => Names {
                id,
                group: GroupId(0),
            },
        },
        Verdict::Intact {
            id,
            group,
            count: _,
        } => Names { id, group },
    }
}

// The places of the panels that a packet can reach, if it can reach any.
#[tactic(auto, using(std::proofs::lemmas::Bool::Decides::nat_tests), unfolding(crate::specs::Turn::span_of))]
fn span_of(entry: Entry, names: Names) -> Option<Span>
    ensures { result ≡ span_of entry names }
{
    let all = Span {
        first: 0,
        end: entry.count,
    };
    if names.group.0 != 0 {
        return if entry.members == 0 { None } else { Some(all) };
    }
    if names.id.0 == 0 {
        return Some(all);
    }
    let first = entry.at;
    if MOST_PANELS <= first {
        return None;
    }
    Some(Span {
        first,
        end: first + 1,
    })
}

// For each profile, by its number, whether its ranges allow what an order stores.
fn allowed_in(order: &Order, d: &[u8]) -> [bool; PROFILE_COUNT]
    requires { order.now ≡ order_of (command d.now) }
    ensures { result ≡ allowed_in order.now (drop 1 d.now) }
{
    match *order {
        Order::Store(row) => judging::allowed_by(row, d),
        _ => [false; PROFILE_COUNT],
    }
}

// What a packet changes, if it is a set.
#[tactic(auto, unfolding(crate::specs::Turn::change_of))]
fn change_of(
    entry: Entry,
    names: Names,
    order: &Order,
    allowed: [bool; PROFILE_COUNT],
    d: &[u8],
) -> Option<Change>
    requires { (order.now ≡ order_of (command d.now)) × (allowed ≡ allowed_in order.now (drop 1 d.now)) }
    ensures { result ≡ change_of entry names (command d.now) }
{
    let Order::Store(row) = *order else {
        return None;
    };
    let span = span_of(entry, names)?;
    Some(Change {
        names,
        row,
        allowed,
        span,
    })
}

// A panel's own reply: the report of a get, ACK to a set that it takes, else NAV.
fn reply_from(p: Panel, order: &Order, allowed: [bool; PROFILE_COUNT], d: &[u8]) -> Reply
    requires { (order.now ≡ order_of (command d.now)) × (allowed ≡ allowed_in order.now (drop 1 d.now)) }
    ensures { result ≡ reply_by p.id (judge (command d.now) p) }
{
    let id = p.id;
    match *order {
        Order::Report(row) => judging::report_of(p, row),
        Order::Store(row) => {
            if judging::takes(p, row.index(), allowed, d) {
                return answering::word_from(id, Control::Ack);
            }
            answering::word_from(id, Control::Nav)
        }
        Order::NotAvailable => answering::word_from(id, Control::Nav),
    }
}

// The reply to a packet: that of the panel with its ID, where an answer is due and the panel is there.
#[tactic(auto, using(std::proofs::lemmas::Bool::Decides::nat_tests), unfolding(crate::specs::Turn::reply_to))]
fn reply_to(
    entry: Entry,
    names: Names,
    order: &Order,
    allowed: [bool; PROFILE_COUNT],
    d: &[u8],
) -> Reply
    requires { (order.now ≡ order_of (command d.now)) × (allowed ≡ allowed_in order.now (drop 1 d.now)) }
    ensures { result ≡ reply_to entry names (command d.now) }
{
    if !packet::is_heard(names.id, names.group) {
        return answering::silence();
    }
    if MOST_PANELS <= entry.at {
        return answering::silence();
    }
    let p = entry.panel;
    reply_from(p, order, allowed, d)
}

// The reply to a damaged burst: NACK from the panel that it seems to be for, where it is there.
#[tactic(auto, using(std::proofs::lemmas::Bool::Decides::nat_tests), unfolding(crate::specs::Turn::nack_to))]
fn nack_to(entry: Entry, seems: Option<MonitorId>) -> Reply
    ensures { result ≡ nack_to entry seems }
{
    let Some(id) = seems else {
        return answering::silence();
    };
    if MOST_PANELS <= entry.at {
        return answering::silence();
    }
    answering::word_from(id, Control::Nack)
}

// An intact packet.
fn turn_by(entry: Entry, names: Names, d: &[u8]) -> Turn
    ensures { result ≡ record { reply = reply_to entry names (command d.now); change = change_of entry names (command d.now) } }
{
    let order = judging::order_of(d);
    let allowed = allowed_in(&order, d);
    let change = change_of(entry, names, &order, allowed, d);
    let reply = reply_to(entry, names, &order, allowed, d);
    Turn { reply, change }
}

// What a burst comes to, by what was read of it and what the table has of its names.
#[tactic(auto, unfolding(crate::specs::Turn::turn_by))]
pub fn turn_of(entry: Entry, reading: Reading) -> Turn
    ensures { result ≡ turn_by entry reading.entry.verdict reading.entry.data.now reading.entry.seems }
{
    match reading.verdict {
        Verdict::Empty => {
            let reply = answering::silence();
            Turn {
                reply,
                change: None,
            }
        }
        Verdict::Damaged(_) => {
            let reply = nack_to(entry, reading.seems);
            Turn {
                reply,
                change: None,
            }
        }
        Verdict::Intact {
            id,
            group,
            count: _,
        } => turn_by(entry, Names { id, group }, reading.data),
    }
}
