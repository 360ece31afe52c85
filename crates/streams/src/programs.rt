// What the programs have in common: what is read, what is said, and how they are used.
use super::{
    Given, PATH_MAX, Source, complain, complain_lines, first_of, input_of, list_received, name_of,
    receive, text_received, write_lines, write_out,
};
use list_bytes::MAX_BYTES;
use scan::TEXT_BYTES;
use std::io::{Read, Write};
use std::rt::{Env, Files};
use text_pieces::Trouble;

// What was said in the first bytes of a buffer: a text, the bytes of a list, or what is wrong.
pub fn say<O: Write, E: Write>(
    buffer: &[u8],
    said: Result<usize, Trouble>,
    output: &mut O,
    errors: &mut E,
) {
    match said {
        Ok(count) => write_out(output, first_of(buffer, count), errors),
        Err(trouble) => complain(errors, first_of(buffer, trouble.size)),
    }
}

// Does `work` on the list that is read from `input`, the file with that name or standard input. The closures are given the writers, which
// they would else have to hold beside one another.
pub fn with_list<I: Read, O: Write, E: Write, F: FnOnce(&[u8], &mut O, &mut E)>(
    input: &mut I,
    name: &[u8],
    output: &mut O,
    errors: &mut E,
    work: F,
)
    requires { F.IsAlwaysCallable work }
{
    let mut bytes = [0u8; MAX_BYTES + 1];
    if let Some(got) = receive(input, name, &mut bytes, errors) {
        work(list_received(&bytes, got), output, errors);
    }
}

// The same with a text.
pub fn with_text<I: Read, O: Write, E: Write, F: FnOnce(&[u8], &mut O, &mut E)>(
    input: &mut I,
    name: &[u8],
    output: &mut O,
    errors: &mut E,
    work: F,
)
    requires { F.IsAlwaysCallable work }
{
    let mut bytes = [0u8; TEXT_BYTES + 1];
    if let Some(got) = receive(input, name, &mut bytes, errors) {
        work(text_received(&bytes, got), output, errors);
    }
}

// A program with so many arguments of its own: it is told how it is used, or does its work on what is read.
pub fn with_input<R, O, E, F>(
    rt: &R,
    own: usize,
    usage: &[&str],
    output: &mut O,
    errors: &mut E,
    work: F,
)
where
    R: Env + Files + Input,
    O: Write,
    E: Write,
    F: FnOnce(&mut Given<R::Reader, R::File>, &[u8], &mut O, &mut E),
    requires { F.IsAlwaysCallable work }
{
    let mut path = [0u8; PATH_MAX];
    match input_of(rt, own, &mut path, errors) {
        Source::Nothing => {}
        Source::Help => write_lines(output, usage, errors),
        Source::Misused => complain_lines(errors, usage),
        Source::Given(mut input, size) => {
            work(&mut input, name_of(&path, size), output, errors);
        }
    }
}
