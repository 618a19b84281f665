// A fault of a record of a setup image, and the line that tells it.
#![tactic(auto)]

ghost use Rattle.std.specs.Prelude.{◌≡◌, ◌+◌, ◌≤◌, ◌<◌, [], ◌∷◌, ◌++◌, Option, length};
ghost use Rattle.image_faults.specs.Lines.{decimal, fault_number, code_in, line_of, longest_line, padded};
ghost use Rattle.image_faults.specs.Private.Texts.{text_in, IsPadded};

use refusals::Refusal;

// The longest line, that of a code in a record from 10 on, with its line feed.
pub const LONGEST_LINE: usize = 9;

// What is wrong with a record: it is dropped, or its field with this code is broken, or has a value that is not allowed.
#[derive(Clone, Copy, Debug, PartialEq, Eq)]
pub enum Fault {
    Dropped,
    Broken(u8),
    NotAllowed(u8),
}

impl Fault {
    // The number of the reader's refusal.
    fn number(self) -> u8
        ensures { result ≡ fault_number self }
    {
        u8::from(match self {
            Fault::Dropped => Refusal::Record,
            Fault::Broken(_) => Refusal::Field,
            Fault::NotAllowed(_) => Refusal::Value,
        })
    }

    // The code of the field, where one is told.
    fn code(self) -> Option<u8>
        ensures { result ≡ code_in self }
    {
        match self {
            Fault::Dropped => None,
            Fault::Broken(code) | Fault::NotAllowed(code) => Some(code),
        }
    }
}

// A line of text, at the front of its bytes; those past it are 0. It is no ArrayVec, since that is not Copy.
#[derive(Clone, Copy)]
pub struct Line {
    pub bytes: [u8; LONGEST_LINE],
    pub count: usize,
}

impl Line {
    // A line without text.
    fn new() -> Line
        ensures { result ≡ padded [] }
    {
        Line {
            bytes: [0; LONGEST_LINE],
            count: 0,
        }
    }

    // A character behind what the line has.
    fn push(&mut self, b: u8)
        requires { IsPadded self.old × (length (text_in self.old) < longest_line) }
        ensures padded { IsPadded self.new }
        ensures text { text_in self.new ≡ text_in self.old ++ b ∷ [] }
    {
        self.bytes[self.count] = b;
        self.count += 1;
    }

    // A number below 100 in decimal behind what the line has.
    fn push_number(&mut self, n: u8)
        requires { IsPadded self.old × (length (text_in self.old) + 2 ≤ longest_line) }
        ensures padded { IsPadded self.new }
        ensures text { text_in self.new ≡ text_in self.old ++ decimal n }
    {
        if n < 10 {
            self.push(b'0' + n);
        } else {
            self.push(b'0' + n / 10);
            self.push(b'0' + n % 10);
        }
    }
}

// The text of a line.
#[tactic(auto, unfolding(crate::specs::Lines::line_of))]
fn text_of(number: u8, fault: Fault) -> Line
    ensures padded { IsPadded result }
    ensures text { text_in result ≡ line_of number fault }
{
    let mut line = Line::new();
    line.push_number(number);
    line.push(b' ');
    line.push_number(fault.number());
    if let Some(code) = fault.code() {
        let [high, low] = hex_digits::digits(code);
        line.push(b' ');
        line.push(high);
        line.push(low);
    }
    line.push(b'\n');
    line
}

// The line of a fault of the record with this number, below 100.
pub fn line_of(number: u8, fault: Fault) -> Line
    ensures { result ≡ padded (line_of number fault) }
{
    text_of(number, fault)
}
