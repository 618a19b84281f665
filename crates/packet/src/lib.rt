// One burst of the line: the verdict on it and what is wrong with it, its data bytes, and a packet written out.
#![tactic(auto)]

mod by_front;
mod editions;
mod words;

ghost use Rattle.std.specs.Prelude.{◌≡◌, Some};
ghost use Rattle.packet.specs.Control.{control_byte};
ghost use Rattle.packet.specs.Answered.{is_heard};
ghost use Rattle.packet.specs.Packet.{damage_number, damage_in, written_of, output_of};

pub use by_front::{data_by, read, read_by, seems_for};
pub use editions::{HEAD_201, SICP_201, UnknownEdition};

// The bytes of the longest packet.
pub const LONGEST: usize = 40;

// An edition of the protocol, 1.85 or 2.01, by which a line's packets are read and written.
#[derive(Clone, Copy, Debug, PartialEq, Eq)]
pub enum Edition {
    Sicp185,
    Sicp201,
}

#[derive(Clone, Copy, Debug, PartialEq, Eq)]
pub struct MonitorId(pub u8);

#[derive(Clone, Copy, Debug, PartialEq, Eq)]
pub struct GroupId(pub u8);

// What is wrong with a burst.
#[derive(Clone, Copy, Debug, PartialEq, Eq)]
pub enum Damage {
    TooShort,
    TooLong,
    Size,
    Checksum,
}

// What the bytes between two quiet marks are. An intact burst has an ID, a group and a count of data bytes. An empty one is neither
// right nor wrong, so a Result would be no plainer.
#[derive(Clone, Copy, Debug, PartialEq, Eq)]
pub enum Verdict {
    Empty,
    Damaged(Damage),
    Intact {
        id: MonitorId,
        group: GroupId,
        count: usize,
    },
}

// What a burst says: the verdict; the data, which is a part of the burst; and whom the burst seems to be for, if it is damaged.
#[derive(Clone, Copy)]
pub struct Reading<'a> {
    pub verdict: Verdict,
    pub data: &'a [u8],
    pub seems: Option<MonitorId>,
}

// Why no packet is written: the data fits none, or the output has no room for any.
#[derive(Clone, Copy, Debug, PartialEq, Eq)]
pub enum WriteError {
    TooLong,
    NoRoom,
}

// The control words, which box and host exchange.
#[derive(Clone, Copy, Debug, PartialEq, Eq)]
pub enum Control {
    Ack,
    Nack,
    Nav,
}

// Whether a packet with this ID and group is answered. They stand in structs of two crates, so they come as two.
#[tactic(auto, unfolding(crate::specs::Answered::is_heard))]
pub fn is_heard(id: MonitorId, group: GroupId) -> bool
    ensures { result ≡ is_heard id group }
{
    group.0 == 0 && id.0 != 0
}

// The byte behind 0x00 in a control word's data.
impl From<Control> for u8 {
    ghost from_gives = { λ word byte. byte ≡ control_byte word };

    fn from(word: Control) -> u8 {
        match word {
            Control::Ack => 0x06,
            Control::Nack => 0x15,
            Control::Nav => 0x18,
        }
    }
}

impl From<Damage> for u8 {
    ghost from_gives = { λ damage number. number ≡ damage_number (Some damage) };

    fn from(damage: Damage) -> u8 {
        match damage {
            Damage::TooShort => 1,
            Damage::TooLong => 2,
            Damage::Size => 3,
            Damage::Checksum => 4,
        }
    }
}

// The paper's number for what is wrong with a burst, 0 where nothing is.
pub fn damage_number(damage: Option<Damage>) -> u8
    ensures { result ≡ damage_number damage }
{
    damage.map_or(0, u8::from)
}

impl Verdict {
    // What is wrong with a burst that has this verdict.
    pub fn damage(self) -> Option<Damage>
        ensures { result ≡ damage_in self }
    {
        match self {
            Verdict::Damaged(damage) => Some(damage),
            Verdict::Empty | Verdict::Intact { .. } => None,
        }
    }
}

// A packet at the front of out, of which the rest stays as it was, and its size. Where there is no group byte, the data or the
// checksum stands in its place.
pub fn write_packet(
    edition: Edition,
    out: &mut [u8],
    id: MonitorId,
    group: GroupId,
    d: &[u8],
) -> Result<usize, WriteError>
    ensures value { result ≡ written_of edition out.old d.now }
    ensures out_after { out.new ≡ output_of edition out.old id group d.now }
{
    if out.len() < LONGEST {
        return Err(WriteError::NoRoom);
    }
    let head = edition.head_size();
    let n = d.len();
    if LONGEST - head <= n {
        return Err(WriteError::TooLong);
    }
    let size = (n + head + 1) as u8;
    let third = edition.group_on(group.0);
    out[0] = size;
    out[1] = id.0;
    out[2] = third;
    lists::copy(d, &mut out[head..]);
    out[n + head] = size ^ id.0 ^ third ^ xor::xor_all(d);
    Ok(size as usize)
}
