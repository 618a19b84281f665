// The receiver of a small repeater's line, which is of 2.01. It has no room for a packet, and needs none.
#![tactic(auto)]

ghost use Rattle.std.specs.Prelude.{◌≡◌, ◌+◌, min};
ghost use mathlib.Core.List.{[]};
ghost use Rattle.packet.specs.declared.Edition.{Edition};
ghost use Rattle.packet.specs.Packet.{longest};
ghost use Rattle.packet.specs.Front.{reading_by};
ghost use Rattle.panels.specs.WellFormed.{WellFormed};
ghost use Rattle.answers.specs.Played.{answered_on};
ghost use Rattle.line.specs.Any.{heard_of};
ghost use Rattle.small_receiver.specs.Small.{small_of, reading_in};

use answers::Played;
use line::{Heard, LineReceiver};
use packet::{Edition, HEAD_201, LONGEST};
use panels::Table;
use settings::MOST_VALUES;

// The bytes of the longest command: the head, a set code, the values of the largest row, and the checksum.
const LONGEST_COMMAND: usize = HEAD_201 + 1 + MOST_VALUES + 1;

// Counted where more bytes came than a packet may have.
const PAST_LONGEST: u8 = LONGEST as u8 + 1;

// The first bytes since the last quiet mark, as many as the longest command has; how many came, up to one more than a packet may
// have; and the XOR of all. The count stands beside the array, since there is no heap and it goes on past the array's end.
#[derive(Clone, Copy)]
pub struct SmallReceiver {
    bytes: [u8; LONGEST_COMMAND],
    count: u8,
    sum: u8,
}

// One more than was counted, as long as that counts.
fn counted(count: u8) -> u8
    ensures { result ≡ min (count + 1) (longest + 1) }
{
    if count < PAST_LONGEST {
        count + 1
    } else {
        PAST_LONGEST
    }
}

// The answer to a burst by its front, the count of its bytes and the XOR of all.
fn answered_by(t: Table, front: &[u8], count: usize, sum: u8) -> Played
    requires { WellFormed t }
    ensures { result ≡ answered_on t (reading_by Edition.Sicp201 front.now count sum) }
{
    answers::answered_on(t, packet::read_by(Edition::Sicp201, front, count, sum))
}

impl SmallReceiver {
    // The receiver of a line that is opened: nothing was heard.
    pub fn open() -> SmallReceiver
        ensures { result ≡ small_of [] }
    {
        SmallReceiver {
            bytes: [0u8; LONGEST_COMMAND],
            count: 0,
            sum: 0,
        }
    }

    // The answer to the burst of which it has the front.
    fn answered(self, t: Table) -> Played
        requires { WellFormed t }
        ensures { result ≡ answered_on t (reading_in self) }
    {
        let bytes = self.bytes;
        let n = self.count as usize;
        let sum = self.sum;
        if n < LONGEST_COMMAND {
            return answered_by(t, &bytes[..n], n, sum);
        }
        answered_by(t, &bytes, n, sum)
    }
}

impl LineReceiver for SmallReceiver {
    ghost use Rattle.small_receiver.specs.Small.{at_mark, with_byte, reading_in, fresh_as, IsOpen};
    ghost use Rattle.small_receiver.specs.Laws.{small_answers};

    ghost next = { with_byte };

    ghost reading = { reading_in };

    ghost fresh = { fresh_as };

    ghost is_open = { IsOpen };

    fn open_201() -> SmallReceiver {
        SmallReceiver::open()
    }

    fn byte(mut self, b: u8) -> SmallReceiver {
        let n = self.count as usize;
        self.count = counted(self.count);
        self.sum = self.sum ^ b;
        if n < LONGEST_COMMAND {
            self.bytes[n] = b;
        }
        self
    }

    fn quiet(self, t: Table) -> Heard<SmallReceiver>
        requires { WellFormed t }
        ensures law { result ≡ heard_of (fresh_as self) (answered_on t (reading_in self)) }
        ensures mark { result ≡ at_mark self t }
    {
        let played = self.answered(t);
        Heard {
            receiver: SmallReceiver::open(),
            table: played.table,
            reply: played.reply,
            damage: played.damage,
        }
    }

    ghost answers_all = { small_answers };
}
