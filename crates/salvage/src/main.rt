// Salvages the setup image on standard input. The lines that tell its faults go to standard output and, where a file is named,
// what was kept goes there as an image of form 2. What fails is told on standard error.
#![tactic(auto)]

ghost use Rattle.std.specs.Prelude.{◌≡◌, ◌≤◌, length};
ghost use Rattle.lists.specs.Lists.{laid_over};
ghost use Rattle.panels.specs.Wall.{panels_of};
ghost use Rattle.panels.specs.WellFormed.{WellFormed};
ghost use Rattle.image_write.specs.Written.{setup_of, size_of, largest};

use image_forms::Form;
use image_salvage::LINES_CAP;
use panels::Table;
use std::fmt::Display;
use std::fs::{File, OpenFile};
use std::io::Write;
use std::rt::{Env, Files};
use std::{env, fmt, fs, io};

// The longest image that is taken, and room for one byte more, which tells that the input is longer.
const LONGEST: usize = 4096;

const ROOM: usize = LONGEST + 1;

// The longest name of a file that is taken.
const LONGEST_NAME: usize = 4096;

// The arguments are not what the program takes, which it prints.
#[derive(Clone, Copy, Debug, PartialEq, Eq)]
struct Usage;

impl fmt::Display for Usage {
    fn fmt<W: fmt::Write>(&self, f: &mut fmt::Formatter<W>) -> fmt::Result {
        f.write_str("usage: salvage [FILE] < IMAGE\n")?;
        f.write_str("The faults of the setup image go to standard output, ")?;
        f.write_str("and what is kept goes to FILE, which must not exist.")
    }
}

// The file's name, where one is given: the one argument behind the program's own.
fn read_name(rt: &(impl Env + AllocGlobal)) -> io::Result<Result<Option<String>, Usage>> {
    let mut arguments = match env::args(rt) {
        Ok(arguments) => arguments,
        // One of them is not text, and a file's name is.
        Err(error) if error.kind() == io::ErrorKind::InvalidData => return Ok(Err(Usage)),
        Err(error) => return Err(error),
    };
    let _program = arguments.next();
    let Some(name) = arguments.next() else {
        return Ok(Ok(None));
    };
    if arguments.next().is_some() || LONGEST_NAME < name.len() {
        return Ok(Err(Usage));
    }
    Ok(Ok(Some(name)))
}

// What the system says of an error, without the error's number, which stands behind it.
fn reason(text: &str) -> &str {
    match text.split_once(" (os error ") {
        Some((reason, _)) => reason,
        None => text,
    }
}

// Tells on standard error what failed, and why.
fn tell(rt: &(impl Eprint + AllocGlobal), what: &str, error: &io::Error) -> io::Result<()> {
    let text = format!(in rt.alloc(); "{error}")?;
    eprintln!(rt; "{what}: {}", reason(text.as_str()))
}

// Tells on standard error where something failed, if it did.
fn or_tell(rt: &(impl Eprint + AllocGlobal), what: &str, done: io::Result<()>) -> io::Result<()> {
    match done {
        Ok(()) => Ok(()),
        Err(error) => tell(rt, what, &error),
    }
}

// A line of its own, as a refusal's number.
fn print_line(
    rt: &(impl Print + Eprint + AllocGlobal),
    line: impl Display + Drop,
) -> io::Result<()> {
    or_tell(rt, "standard output", rt.println(line))
}

// The image of what was kept, at the front of out, which has room for any.
fn write_kept(t: Table, out: &mut [u8]) -> usize
    requires { WellFormed t × (largest ≤ length out.old) }
    ensures value { result ≡ size_of Form.Two (panels_of t) }
    ensures out_after { out.new ≡ laid_over (setup_of Form.Two (panels_of t)) out.old }
{
    image_write::write_image(Form::Two, t, out).unwrap()
}

// Fills a file that was made and closes it; it is well where all of it is on the disk.
fn fill(mut file: impl Write + OpenFile + Drop, bytes: &[u8]) -> io::Result<()> {
    file.write_all(bytes)?;
    file.sync_all()
}

// Makes a file of these bytes. One that could not be filled is removed, so that no part of a setup is left.
fn make_file(rt: &(impl Files + Eprint + AllocGlobal), path: &str, bytes: &[u8]) -> io::Result<()> {
    let file = match File::create_new(rt, path) {
        Ok(file) => file,
        Err(error) => return tell(rt, path, &error),
    };
    let Err(error) = fill(file, bytes) else {
        return Ok(());
    };
    let told = tell(rt, path, &error);
    let removed = fs::remove_file(rt, path);
    told?;
    or_tell(rt, path, removed)
}

// Keeps a table in a new file.
fn keep(rt: &(impl Files + Eprint + AllocGlobal), t: Table, path: &str) -> io::Result<()>
    requires { WellFormed t }
{
    let mut out = image_write::room();
    let n = write_kept(t, &mut out);
    make_file(rt, path, text::front(&out, n))
}

// The lines come first, and where they are lost no file is made: a setup without them does not tell what is from the image.
fn salvage(
    rt: &(impl Files + Print + Eprint + AllocGlobal),
    image: &[u8],
    name: Option<String>,
) -> io::Result<()> {
    let mut lines = [0u8; LINES_CAP];
    let salvaged = match image_salvage::salvage(image, &mut lines) {
        Ok(salvaged) => salvaged,
        Err(refusal) => return print_line(rt, u8::from(refusal)),
    };
    if let Err(error) = rt.write_all(text::front(&lines, salvaged.told)) {
        return tell(rt, "standard output", &error);
    }
    let table = salvaged.table;
    match name {
        Some(path) => keep(rt, table, path.as_str()),
        None => Ok(()),
    }
}

// The arguments are judged before anything is read. A part of an image that could not be read whole is never taken for one.
fn run(rt: &(impl Files + Env + Input + Print + Eprint + AllocGlobal)) -> io::Result<()> {
    let name = match read_name(rt)? {
        Ok(name) => name,
        Err(usage) => return eprintln!(rt; "{usage}"),
    };
    let mut image = [0u8; ROOM];
    let mut reader = rt.reader();
    match text::read_full(&mut reader, &mut image) {
        Ok(n) => {
            if LONGEST < n {
                return print_line(rt, "too-long");
            }
            salvage(rt, text::front(&image, n), name)
        }
        Err(error) => tell(rt, "standard input", &error),
    }
}

fn main(rt: HostRuntime) -> io::Result<()> {
    run(&rt)
}
