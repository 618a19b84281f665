// Reads setup images of either form and prints each as the writer makes it of the table read, in form 2 and in form 1.
// Standard input has for each image its length as two bytes, high byte first, and then that many bytes.
#![tactic(auto)]

ghost use Rattle.std.specs.Prelude.{◌≤◌, ◌<◌, length};
ghost use Rattle.panels.specs.WellFormed.{WellFormed};

use image_forms::Form;
use image_write::LARGEST;
use panels::Table;
use std::io;
use text::Stop;

// The longest image of the input, whose length is two bytes, fits in it.
const ROOM: usize = 65536;

// The hex digits of the largest image.
const MOST_DIGITS: usize = 2 * LARGEST;

// Reads an image's length and the image into the front of buf, and answers the length, or where the input stopped. It stands beside
// text::read_step, which reads a count of one byte: each clause of a function for both would have to speak of the count's bytes too.
fn read_image<R: io::Read>(reader: &mut R, buf: &mut [u8]) -> io::Result<Result<usize, Stop>>
    requires { 65536 ≤ length buf.old }
{
    let mut two = [0u8; 2];
    match text::read_full(reader, &mut two)? {
        0 => return Ok(Err(Stop::End)),
        1 => return Ok(Err(Stop::Cut)),
        _ => (),
    }
    let size = usize::from(u16::from_be_bytes(two));
    if text::read_full(reader, &mut buf[..size])? < size {
        return Ok(Err(Stop::Cut));
    }
    Ok(Ok(size))
}

// Put into digits first and written at once: as `text::Digits` they go through the print buffer, which takes a text byte by byte,
// and an image of few bytes took 2.3 times the time.
fn print_hex(rt: &impl Print, bytes: &[u8]) -> io::Result<()> {
    let mut digits = [0u8; MOST_DIGITS];
    let count = text::hex(bytes, &mut digits);
    rt.write_all(text::front(&digits, count))
}

fn print_refusal(rt: &impl Print, number: u8) -> io::Result<()> {
    print!(rt; "refused {number}")
}

// The table's image in a form, in upper-case hex, or the refusal.
fn print_image(rt: &impl Print, form: Form, t: Table) -> io::Result<()>
    requires { WellFormed t }
{
    let mut out = image_write::room();
    match image_write::write_image(form, t, &mut out) {
        Ok(n) => print_hex(rt, text::front(&out, n)),
        Err(refusal) => print_refusal(rt, refusal.into()),
    }
}

fn print_reading(rt: &impl Print, bytes: &[u8]) -> io::Result<()> {
    if 4096 < bytes.len() {
        return print!(rt; "too-long");
    }
    match image_read::read_image(bytes) {
        Ok(table) => {
            print_image(rt, Form::Two, table)?;
            print!(rt; " ")?;
            print_image(rt, Form::One, table)
        }
        Err(refusal) => print_refusal(rt, refusal.into()),
    }
}

fn run(rt: &(impl Print + Input)) -> io::Result<()> {
    text::each(rt, &mut [0u8; ROOM], read_image, (), |_, number, image| {
        print!(rt; "{number} ")?;
        print_reading(rt, image)?;
        println!(rt)
    })
}

fn main(rt: HostRuntime) -> io::Result<()> {
    run(&rt)
}
