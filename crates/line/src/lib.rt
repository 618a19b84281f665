// The receiver of one serial line. It takes one byte or one quiet mark at a time and answers at the mark.
#![tactic(auto)]

ghost use Rattle.std.specs.Prelude.{◌≡◌, ℕ};
ghost use mathlib.Core.List.{[], foldl};
ghost use Rattle.packet.specs.Reading.{Reading, reading_of};
ghost use Rattle.panels.specs.WellFormed.{WellFormed};
ghost use Rattle.answers.specs.Played.{answered_on};
ghost use Rattle.line.specs.Any.{heard_of, AnswersAll};
ghost use Rattle.line.specs.Receiver.{receiver_of, reading_in};

use answers::{Played, Reply};
use packet::{Damage, Edition, LONGEST, Reading, Verdict};
use panels::Table;

// Counted where more bytes came than a packet may have.
const PAST_LONGEST: usize = LONGEST + 1;

// The line's edition; the first bytes since the last quiet mark, as many as a packet may have, and how many there were, up to one
// more: the count stands beside the array, since there is no heap and it goes on past the array's end.
#[derive(Clone, Copy)]
pub struct Receiver {
    edition: Edition,
    bytes: [u8; LONGEST],
    count: usize,
}

// What a quiet mark leaves, and what was wrong with the burst before it.
#[derive(Clone, Copy)]
pub struct Heard<R> {
    pub receiver: R,
    pub table: Table,
    pub reply: Reply,
    pub damage: Option<Damage>,
}

// Any receiver of one line.
pub trait LineReceiver: Copy {
    // What a byte makes of it, how it reads what it has at a mark, and how it is fresh.
    ghost next: { Self → ℕ → Self };

    ghost reading: { Self → Reading };

    ghost fresh: { Self → Self };

    // On a 2.01 line nothing was heard since the last mark.
    ghost is_open: { Self → Type 0 };

    // The receiver of a 2.01 line that is opened.
    fn open_201() -> Self
        ensures { is_open result };

    fn byte(self, b: u8) -> Self
        ensures { result ≡ next self b };

    // A quiet mark: the burst is answered, and nothing was heard since.
    fn quiet(self, t: Table) -> Heard<Self>
        requires { WellFormed t }
        ensures { result ≡ heard_of (fresh self) (answered_on t (reading self)) };

    // The bytes of a burst, one after the other.
    final fn bytes(self, burst: &[u8]) -> Self
        ensures { result ≡ foldl next self burst.now }
    {
        let mut receiver = self;
        for b in burst {
            receiver = receiver.byte(*b);
        }
        receiver
    }

    // A burst of any length is answered as what is read of all its bytes, and the line is open again.
    ghost answers_all: { AnswersAll next reading fresh is_open };
}

impl Receiver {
    // The receiver of a line that is opened: nothing was heard, and the edition stays.
    pub fn open(edition: Edition) -> Receiver
        ensures { result ≡ receiver_of edition [] }
    {
        Receiver {
            edition,
            bytes: [0u8; LONGEST],
            count: 0,
        }
    }

    // The answer to the burst that it has.
    fn answered(self, t: Table) -> Played
        requires { WellFormed t }
        ensures { result ≡ answered_on t (reading_in self) }
    {
        let edition = self.edition;
        let bytes = self.bytes;
        let n = self.count;
        if LONGEST < n {
            let reading = Reading {
                verdict: Verdict::Damaged(Damage::TooLong),
                data: &[],
                seems: packet::seems_for(edition, &bytes),
            };
            return answers::answered_on(t, reading);
        }
        answers::play(edition, t, &bytes[..n])
    }
}

impl LineReceiver for Receiver {
    ghost use Rattle.line.specs.Receiver.{with_byte, reading_in, fresh_as, at_mark, IsOpen};
    ghost use Rattle.line.specs.Streams.{receiver_answers};

    ghost next = { with_byte };

    ghost reading = { reading_in };

    ghost fresh = { fresh_as };

    ghost is_open = { IsOpen };

    fn open_201() -> Receiver {
        Receiver::open(Edition::Sicp201)
    }

    #[tactic(auto, using(std::proofs::lemmas::Bool::Decides::nat_tests), unfolding(crate::specs::Receiver::with_byte))]
    fn byte(mut self, b: u8) -> Receiver {
        let n = self.count;
        if n < LONGEST {
            self.bytes[n] = b;
            self.count = n + 1;
            return self;
        }
        self.count = PAST_LONGEST;
        self
    }

    #[tactic(auto, unfolding(crate::specs::Receiver::at_mark))]
    fn quiet(self, t: Table) -> Heard<Receiver>
        requires { WellFormed t }
        ensures law { result ≡ heard_of (fresh_as self) (answered_on t (reading_in self)) }
        ensures mark { result ≡ at_mark self t }
    {
        let played = self.answered(t);
        Heard {
            receiver: Receiver::open(self.edition),
            table: played.table,
            reply: played.reply,
            damage: played.damage,
        }
    }

    ghost answers_all = { receiver_answers };
}
