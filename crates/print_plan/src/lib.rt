// The program `plan`: the plan of a delay list as text.
#![tactic(auto)]

use report::TEXT_PLACES;
use std::io::{Read, Write};
use std::rt::{Env, Files};

const USAGE: [&str; 4] = [
    "use: plan [FILE]\n",
    "Prints the plan of the delay list in FILE, or on standard input: the common, the free and the two-timing period and the\n",
    "offset, then a line for each register with its number, its free timing and its two-timing value.\n",
    "make_list makes a delay list of a text.\n",
];

// A text that is given as a list is refused; then this says what to do.
fn hint<E: Write>(list: &[u8], errors: &mut E) {
    if list_bytes::looks_like_text(list) {
        streams::complain(
            errors,
            b"this looks like a text: make_list makes a delay list of it\n",
        );
    }
}

// The plan of the list that is read from `input`, the file with that name or standard input; or its refusal.
pub fn print_plan<R: Read, O: Write, E: Write>(
    input: &mut R,
    name: &[u8],
    output: &mut O,
    errors: &mut E,
) {
    streams::with_list(input, name, output, errors, |list, output, errors| {
        let mut text = [0u8; TEXT_PLACES];
        let count = report::report(list, &mut text);
        streams::write_out(output, &text[..count], errors);
        if text[0] == b'r' {
            hint(list, errors);
        }
    });
}

// The program, with its arguments.
pub fn plan<R: Env + Files + Input, O: Write, E: Write>(rt: &R, output: &mut O, errors: &mut E) {
    streams::with_input(
        rt,
        0,
        &USAGE,
        output,
        errors,
        |input, name, output, errors| {
            print_plan(input, name, output, errors);
        },
    );
}
