// The programs' input and output: every fault of reading and writing is told on the writer `errors`.
// The contracts say that what was received is handed on whole: the buffers are a byte longer than the longest list and the longest text,
// so that one that is too long is known by its length.
#![tactic(auto)]

mod programs;

ghost use Rattle.std.specs.Prelude.{◌≡◌, ◌≤◌, ◌<◌, IfOk, OnOk, length, take};
ghost use Rattle.std.specs.Io.KnownBytes.{Appends, WriteAppends};
ghost use Rattle.list_bytes.specs.ListBytes.{max_bytes};
ghost use Rattle.scan.specs.Scan.{text_bytes};
ghost use Rattle.streams.specs.Streams.{AllRead, ReceivedAs};

use list_bytes::MAX_BYTES;
pub use programs::{say, with_input, with_list, with_text};
use scan::TEXT_BYTES;
use std::env::FillError;
use std::fs::File;
use std::io;
use std::io::{ErrorKind, Read, Write};
use std::rt::{Env, Files};

// The places for a file's name.
pub const PATH_MAX: usize = 4096;

// ---- what was received

// The first bytes of a buffer, or all of them.
pub fn first_of<'a>(bytes: &'a [u8], count: usize) -> &'a [u8]
    ensures { result.now ≡ take count bytes.now }
{
    &bytes[..count.min(bytes.len())]
}

// The bytes of a list. A buffer that was filled is too long to be one.
pub fn list_received<'a>(bytes: &'a [u8; MAX_BYTES + 1], count: usize) -> &'a [u8]
    ensures is { result.now ≡ take count bytes.now }
    ensures cut { length bytes.now ≤ count → max_bytes < length result.now }
{
    first_of(bytes, count)
}

// The bytes of a text. A buffer that was filled is too long to be one.
pub fn text_received<'a>(bytes: &'a [u8; TEXT_BYTES + 1], count: usize) -> &'a [u8]
    ensures is { result.now ≡ take count bytes.now }
    ensures cut { length bytes.now ≤ count → text_bytes < length result.now }
{
    first_of(bytes, count)
}

// A file's name.
pub fn name_of<'a>(path: &'a [u8; PATH_MAX], size: usize) -> &'a [u8]
    ensures { result.now ≡ take size path.now }
{
    first_of(path, size)
}

// ---- telling what failed

// The system's numbers of the usual causes.
const NO_SUCH_FILE: i32 = 2;

const NOTHING_YET: i32 = 11;

const NOT_ALLOWED: i32 = 13;

const A_DIRECTORY: i32 = 21;

const NO_SPACE: i32 = 28;

// What is known of an error by its number.
fn cause_of(error: &io::Error) -> &'static [u8] {
    match error.raw_os_error() {
        Some(NO_SUCH_FILE) => b": there is no such file\n",
        Some(NOT_ALLOWED) => b": that is not allowed\n",
        Some(A_DIRECTORY) => b": it is a directory\n",
        Some(NOTHING_YET) => b": nothing is there yet\n",
        Some(NO_SPACE) => b": no space is left\n",
        _ => b"\n",
    }
}

// A file or, without a name, standard input: what cannot be done with it, and why.
fn tell<E: Write>(errors: &mut E, name: &[u8], what: &[u8], error: &io::Error) {
    let subject = if name.len() == 0 {
        b"standard input"
    } else {
        name
    };
    let _ = write_all(errors, subject);
    let _ = write_all(errors, what);
    let _ = write_all(errors, cause_of(error));
}

// ---- reading and writing

// One write: some bytes more, or a fault.
fn write_on<W: Write>(to: &mut W, bytes: &[u8]) -> io::Result<usize>
    ensures some { IfOk result (λ n. 0 < n) }
    ensures fits { IfOk result (λ n. n ≤ length bytes.now) }
    ensures bytes { IfOk result (λ n. Appends (W.contents to.old) (W.contents to.new) (take n bytes.now)) }
{
    let count = to.write(bytes)?;
    if count == 0 {
        return Err(io::Error::from(ErrorKind::WriteZero));
    }
    Ok(count)
}

// All bytes are written, or a write fails.
fn write_all<W: Write>(to: &mut W, bytes: &[u8]) -> io::Result<()>
    ensures { OnOk result (Appends (W.contents to.old) (W.contents to.new) bytes.now) }
{
    let mut done = 0;
    while done < bytes.len() {
        done += write_on(to, &bytes[done..])?;
    }
    Ok(())
}

// Reads until the buffer is full, the input ends or a read fails.
fn read_all<R: Read>(input: &mut R, bytes: &mut [u8]) -> io::Result<usize>
    ensures { IfOk result (λ n. AllRead (R.remaining input.old) (R.remaining input.new) bytes.new n) }
{
    let mut done = 0;
    while done < bytes.len() {
        let more = input.read(&mut bytes[done..])?;
        if more == 0 {
            return Ok(done);
        }
        done += more;
    }
    Ok(done)
}

// The bytes of the file with that name, or of standard input: their count, or none where a fault has been told.
pub fn receive<R: Read, E: Write>(
    input: &mut R,
    name: &[u8],
    bytes: &mut [u8],
    errors: &mut E,
) -> Option<usize>
    ensures { ReceivedAs (R.remaining input.old) (R.remaining input.new) bytes.new result }
{
    match read_all(input, bytes) {
        Ok(done) => Some(done),
        Err(error) => {
            tell(errors, name, b" cannot be read", &error);
            None
        }
    }
}

// All bytes are written, or it is told that they were not.
pub fn write_out<O: Write, E: Write>(output: &mut O, bytes: &[u8], errors: &mut E) {
    if let Err(error) = write_all(output, bytes) {
        tell(errors, b"standard output", b" cannot be written", &error);
    }
}

// The same, for what goes to the writer of the errors itself.
pub fn complain<E: Write>(errors: &mut E, bytes: &[u8]) {
    if let Err(error) = write_all(errors, bytes) {
        tell(errors, b"standard output", b" cannot be written", &error);
    }
}

// The lines of a text, each of them by `write_out`.
pub fn write_lines<O: Write, E: Write>(output: &mut O, lines: &[&str], errors: &mut E) {
    for line in lines {
        write_out(output, line.as_bytes(), errors);
    }
}

// The same, for what goes to the writer of the errors itself.
pub fn complain_lines<E: Write>(errors: &mut E, lines: &[&str]) {
    for line in lines {
        complain(errors, line.as_bytes());
    }
}

// ---- arguments

// What is read: standard input or a file.
#[derive(Drop)]
pub enum Given<I, F> {
    Standard(I),
    File(F),
}

impl<I: Read, F: Read> Read for Given<I, F> {
    fn read(&mut self, buf: &mut [u8]) -> io::Result<usize> {
        match self {
            Given::Standard(input) => input.read(buf),
            Given::File(file) => file.read(buf),
        }
    }
}

// Where a program reads from, with the length of the file's name, 0 for standard input; else it was asked for help, or called wrongly, or
// has told why it reads nothing.
#[derive(Drop)]
pub enum Source<I, F> {
    Given(Given<I, F>, usize),
    Help,
    Misused,
    Nothing,
}

// Argument k, in the first places of `space`; nothing where there is none, or one longer than that.
pub fn argument<R: Env>(rt: &R, k: usize, space: &mut [u8]) -> usize
    ensures { result ≤ length space.new }
{
    rt.arg(k, space).unwrap_or(0)
}

fn is_there<R: Env>(rt: &R, k: usize) -> bool {
    let mut space = [0u8; PATH_MAX];
    match rt.arg(k, &mut space) {
        Err(FillError::NotPresent) => false,
        _ => true,
    }
}

// How many arguments there are, the program's name among them.
fn argument_count<R: Env>(rt: &R) -> usize {
    for k in 0..usize::MAX {
        if !is_there(rt, k) {
            return k;
        }
    }
    usize::MAX
}

fn asks_help<R: Env>(rt: &R, k: usize) -> bool {
    let mut space = [0u8; PATH_MAX];
    let size = argument(rt, k, &mut space);
    first_of(&space, size) == b"--help".as_slice()
}

// Whether one of the arguments asks for help.
fn help_asked<R: Env>(rt: &R, count: usize) -> bool {
    (1..count).any(|k| asks_help(rt, k))
}

// An argument that begins with a dash is no file's name.
fn is_name(name: &[u8]) -> bool {
    !matches!(name, [] | [b'-', ..])
}

// A file is open for reading.
fn open_named<R: Files>(rt: &R, name: &[u8]) -> io::Result<R::File> {
    match std::str::from_utf8(name) {
        Ok(path) => File::open(rt, path),
        Err(_) => Err(io::Error::from(ErrorKind::InvalidFilename)),
    }
}

// The file that argument k names.
pub fn open<R: Env + Files + Input, E: Write>(
    rt: &R,
    k: usize,
    path: &mut [u8; PATH_MAX],
    errors: &mut E,
) -> Source<R::Reader, R::File> {
    let size = argument(rt, k, path);
    let name = name_of(path, size);
    if !is_name(name) {
        return Source::Misused;
    }
    match open_named(rt, name) {
        Ok(file) => Source::Given(Given::File(file), size),
        Err(error) => {
            tell(errors, name, b" cannot be opened", &error);
            Source::Nothing
        }
    }
}

// Where a program with so many arguments of its own reads from: the file that one more argument names, or standard input.
pub fn input_of<R: Env + Files + Input, E: Write>(
    rt: &R,
    own: usize,
    path: &mut [u8; PATH_MAX],
    errors: &mut E,
) -> Source<R::Reader, R::File> {
    let count = argument_count(rt);
    if help_asked(rt, count) {
        return Source::Help;
    }
    if own >= count {
        return Source::Misused;
    }
    let given = count - own;
    if given == 1 {
        return Source::Given(Given::Standard(rt.reader()), 0);
    }
    if given == 2 {
        return open(rt, own + 1, path, errors);
    }
    Source::Misused
}
