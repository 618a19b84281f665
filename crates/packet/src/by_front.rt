// What a burst says by its front, the count of its bytes and the XOR of all: what is wrong with it, the verdict on it, and its data. A
// whole burst is its own front.
ghost use Rattle.std.specs.Prelude.{◌≡◌, ℕ, ◌<◌, ◌≤◌, get_or, IsNone};
ghost use Rattle.packet.specs.Edition.{group_on};
ghost use Rattle.packet.specs.Packet.{shortest, damage_by, verdict_by};
ghost use Rattle.packet.specs.Front.{data_by, reading_by};
ghost use Rattle.packet.specs.Reading.{seems_for, reading_in, reading_of};

use crate::{Damage, Edition, GroupId, LONGEST, MonitorId, Reading, Verdict};

// The byte at a place, 0 where there is none.
fn byte_at(bytes: &[u8], k: usize) -> u8
    ensures { result ≡ get_or bytes.now k 0 }
{
    bytes.get(k).copied().unwrap_or(0)
}

// The group that a burst with this front has, 0 where there is none.
fn group_in(edition: Edition, front: &[u8]) -> u8
    ensures { result ≡ group_on edition (get_or front.now 2 0) }
{
    edition.group_on(byte_at(front, 2))
}

// What is wrong with a burst that is not empty, by its first byte and the count of its bytes: the first damage that holds. The XOR of
// all is asked for only where nothing else is wrong.
fn damage_by<S: FnOnce() -> u8>(edition: Edition, first: u8, count: usize, sum: S) -> Option<Damage>
    requires { S.IsAlwaysCallable sum × (0 < count) }
    ensures damage { (total : ℕ) → ((x : ℕ) → S.post sum x → x ≡ total) → result ≡ damage_by edition first count total }
    ensures least { IsNone result → shortest edition ≤ count }
{
    if count <= edition.head_size() {
        return Some(Damage::TooShort);
    }
    if LONGEST < count {
        return Some(Damage::TooLong);
    }
    if first as usize != count {
        return Some(Damage::Size);
    }
    if sum() != 0 {
        return Some(Damage::Checksum);
    }
    None
}

// The verdict on a burst by its front, the count of its bytes and, where it matters, the XOR of all.
fn verdict_by<S: FnOnce() -> u8>(edition: Edition, front: &[u8], count: usize, sum: S) -> Verdict
    requires { S.IsAlwaysCallable sum }
    ensures { (total : ℕ) → ((x : ℕ) → S.post sum x → x ≡ total) → result ≡ verdict_by edition front.now count total }
{
    if count == 0 {
        return Verdict::Empty;
    }
    if let Some(damage) = damage_by(edition, byte_at(front, 0), count, sum) {
        return Verdict::Damaged(damage);
    }
    Verdict::Intact {
        id: MonitorId(byte_at(front, 1)),
        group: GroupId(group_in(edition, front)),
        count: count - edition.head_size() - 1,
    }
}

// The data bytes of a burst with any verdict, as far as its first bytes have them.
pub fn data_by(edition: Edition, front: &[u8], verdict: Verdict) -> &[u8]
    ensures { result.now ≡ data_by edition front.now verdict }
{
    let Verdict::Intact { count, .. } = verdict else {
        return &[];
    };
    let behind = front.get(edition.head_size()..).unwrap_or(&[]);
    &behind[..behind.len().min(count)]
}

// Whom a burst seems to be for, if it is damaged.
#[tactic(auto, unfolding(crate::specs::Reading::seems_for))]
pub fn seems_for(edition: Edition, burst: &[u8]) -> Option<MonitorId>
    ensures { result ≡ seems_for edition burst.now }
{
    let named = edition.head_size() <= burst.len() && group_in(edition, burst) == 0;
    named.then_some(MonitorId(byte_at(burst, 1)))
}

// What a burst says by its front, the count of its bytes and, where it matters, the XOR of all.
fn read_with<S: FnOnce() -> u8>(edition: Edition, front: &[u8], count: usize, sum: S) -> Reading<'_>
    requires { S.IsAlwaysCallable sum }
    ensures { (total : ℕ) → ((x : ℕ) → S.post sum x → x ≡ total) → reading_in result ≡ reading_by edition front.now count total }
{
    let verdict = verdict_by(edition, front, count, sum);
    let data = data_by(edition, front, verdict);
    let seems = seems_for(edition, front);
    Reading {
        verdict,
        data,
        seems,
    }
}

// What a burst says by its front, which has at least its first three bytes where there are so many, the count of its bytes and the
// XOR of all.
pub fn read_by(edition: Edition, front: &[u8], count: usize, sum: u8) -> Reading<'_>
    ensures { reading_in result ≡ reading_by edition front.now count sum }
{
    read_with(edition, front, count, || sum)
}

// What a whole burst says.
pub fn read(edition: Edition, burst: &[u8]) -> Reading<'_>
    ensures { reading_in result ≡ reading_of edition burst.now }
{
    read_with(edition, burst, burst.len(), || xor::xor_all(burst))
}
