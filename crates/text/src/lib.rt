// What the programs read and print: steps of standard input, and bytes in upper-case hex.
#![tactic(auto)]

ghost use Rattle.std.specs.Prelude.{◌≡◌, ◌+◌, ◌≤◌, ◌<◌, ℕ, List, Some, IfOk, OnErr, length, take, drop};
ghost use Rattle.std.specs.Fmt.{WritesOnOk};
ghost use Rattle.std.specs.Io.KnownBytes.{Consumes, IsAtEnd};
ghost use denote.Ref.{Bor, MutBor};
ghost use Rattle.text.specs.Counts.{IsPrefixLen};
ghost use Rattle.text.specs.Hex.{hex_of, hex_count, hex_over};
ghost use Rattle.text.specs.Private.Parts.{most_in_part};
ghost use Rattle.text.specs.Runs.{RunsTo};
ghost use Rattle.text.specs.Steps.{TakesFewer, StepIn, TakesStep, longest_step, stop_word};

use std::{fmt, io};

// A step's count is one byte.
pub const LONGEST_STEP: usize = 255;

// Where the input stopped: inside a step, or behind the last one.
#[derive(Clone, Copy, Debug, PartialEq, Eq)]
pub enum Stop {
    Cut,
    End,
}

impl fmt::Display for Stop {
    ghost output = { λ stop. Some (stop_word stop) };

    fn fmt<W: fmt::Write>(&self, f: &mut fmt::Formatter<W>) -> fmt::Result {
        match self {
            Stop::Cut => f.write_str("cut"),
            Stop::End => f.write_str("end"),
        }
    }
}

// So many bytes are put into digits at a time.
const PART: usize = 64;

// The digits of a part, written at once.
fn write_part<W: fmt::Write>(part: &[u8], f: &mut fmt::Formatter<W>) -> fmt::Result
    requires { length part.now ≤ most_in_part }
    ensures { WritesOnOk W.write_str_gives f.old result (hex_of part.now) f.new }
{
    let mut digits = [0u8; 2 * PART];
    let n = hex(part, &mut digits);
    let Ok(text) = str::from_utf8(front(&digits, n)) else {
        unreachable!();
    };
    f.write_str(text)
}

// Bytes that print as two hex digits each.
#[derive(Clone, Copy)]
pub struct Digits<'a>(pub &'a [u8]);

impl fmt::Display for Digits<'_> {
    ghost output = { λ digits. Some (hex_of digits.0.now) };

    // In parts, since each text that is written costs the formatter more than a digit does.
    fn fmt<W: fmt::Write>(&self, f: &mut fmt::Formatter<W>) -> fmt::Result {
        let mut left = self.0;
        while 0 < left.len() {
            let (part, behind) = left.split_at(left.len().min(PART));
            write_part(part, f)?;
            left = behind;
        }
        Ok(())
    }
}

// Puts two hex digits for each byte at the front of out and answers how many; where they do not all fit, none.
pub fn hex(bytes: &[u8], out: &mut [u8]) -> usize
    ensures prefix_len { IsPrefixLen result out.new }
    ensures value { result ≡ hex_count bytes.now out.old }
    ensures out_after { out.new ≡ hex_over bytes.now out.old }
{
    if out.len() / 2 < bytes.len() {
        return 0;
    }
    // Each digit by itself, so that the compiler can make many at once.
    for (i, b) in bytes.iter().enumerate() {
        out[2 * i] = hex_digits::digits(*b)[0];
        out[2 * i + 1] = hex_digits::digits(*b)[1];
    }
    2 * bytes.len()
}

// The first n of some bytes, or all where there are fewer.
pub fn front(bytes: &[u8], n: usize) -> &[u8]
    ensures { result.now ≡ take n bytes.now }
{
    bytes.get(..n).unwrap_or(bytes)
}

// Reads until the buffer is full or the input ends, and answers how many bytes were put at its front. What else a failed read
// left in the buffer is not said.
pub fn read_full<R: io::Read>(reader: &mut R, buf: &mut [u8]) -> io::Result<usize>
    ensures prefix_len { IfOk result (λ n. IsPrefixLen n buf.new) }
    ensures bytes { IfOk result (λ n. Consumes (R.remaining reader.old) (R.remaining reader.new) (take n buf.new)) }
    ensures end { IfOk result (λ n. n < length buf.new → IsAtEnd (R.remaining reader.new)) }
    ensures err { OnErr result (TakesFewer (length buf.new) (R.remaining reader.old) (R.remaining reader.new)) }
{
    // Counted, since a read may give fewer bytes than were asked for, and std's read_exact does not say how many came.
    let mut done = 0;
    while done < buf.len() {
        let got = reader.read(&mut buf[done..])?;
        if got == 0 {
            return Ok(done);
        }
        done += got;
    }
    Ok(done)
}

// Reads a count byte, and that many bytes into the front of buf, and answers how many, or where the input stopped. Where a read
// failed, bytes past the longest step are untouched.
pub fn read_step<R: io::Read>(reader: &mut R, buf: &mut [u8]) -> io::Result<Result<usize, Stop>>
    requires { longest_step ≤ length buf.old }
    ensures ok { IfOk result (λ read. StepIn buf.old read buf.new) }
    ensures bytes { IfOk result (λ read. TakesStep (R.remaining reader.old) (R.remaining reader.new) read buf.new) }
    ensures err { OnErr result (drop longest_step buf.new ≡ drop longest_step buf.old) }
    ensures taken { OnErr result (TakesFewer (longest_step + 1) (R.remaining reader.old) (R.remaining reader.new)) }
{
    let mut one = [0u8; 1];
    if read_full(reader, &mut one)? == 0 {
        return Ok(Err(Stop::End));
    }
    let size = usize::from(one[0]);
    if read_full(reader, &mut buf[..size])? < size {
        return Ok(Err(Stop::Cut));
    }
    Ok(Ok(size))
}

// Reads one thing after another into the buffer by next, and calls step for each, with what the one before it left, its number,
// from 1 on, and its bytes. Prints at the end where the input stopped and how many came, and hands out what the last left. The
// loop counts its turns, since a proved loop has to end and nothing says that the input does.
pub fn each<I: Print + Input, S: Drop, N, F>(
    rt: &I,
    buffer: &mut [u8],
    next: N,
    first: S,
    step: F,
) -> io::Result<S>
where
    N: Fn(&mut I::Reader, &mut [u8]) -> io::Result<Result<usize, Stop>>,
    F: Fn(S, u64, &[u8]) -> io::Result<S>,
    requires read { (reader : _) (room : MutBor (List ℕ)) → length room.now ≡ length buffer.old → N.pre next reader room }
    requires step { (n : ℕ) (s : S) → RunsTo F.Fn step first n s → (bytes : Bor (List ℕ)) → length bytes.now ≤ length buffer.old → F.pre step s (n + 1) bytes }
    ensures { IfOk result (λ last. (n : ℕ) × RunsTo F.Fn step first n last) }
{
    let mut state = first;
    let mut reader = rt.reader();
    for number in 0..u64::MAX {
        match next(&mut reader, buffer)? {
            Ok(n) => state = step(state, number + 1, front(buffer, n))?,
            Err(stop) => {
                println!(rt; "{stop} {number}")?;
                return Ok(state);
            }
        }
    }
    Ok(state)
}

// The same for each step of standard input.
pub fn each_step<S: Drop, F: Fn(S, u64, &[u8]) -> io::Result<S>>(
    rt: &(impl Print + Input),
    first: S,
    step: F,
) -> io::Result<S>
    requires { (n : ℕ) (s : S) → RunsTo F.Fn step first n s → (bytes : Bor (List ℕ)) → length bytes.now ≤ longest_step → F.pre step s (n + 1) bytes }
    ensures { IfOk result (λ last. (n : ℕ) × RunsTo F.Fn step first n last) }
{
    each(rt, &mut [0u8; LONGEST_STEP], read_step, first, step)
}
