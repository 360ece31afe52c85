// The programs between delay lists and texts. Each reads from the file that its last argument names, or from standard input, writes what
// it makes to `output`, and what is wrong to `errors`.
#![tactic(auto)]

use list_bytes::MAX_BYTES;
use std::io::{Read, Write};
use std::rt::{Env, Files};
use streams::{PATH_MAX, Source, complain_lines, say, with_input, with_list, with_text};

// ---- make_list

const MAKE_USAGE: [&str; 4] = [
    "use: make_list [FILE]\n",
    "Makes the bytes of a delay list of the text in FILE, or on standard input: in the first line the count of registers and, if\n",
    "you like, that of pairs; then, if you like, a line for each register: hold setup; then one for each pair: launch capture least\n",
    "greatest. Pairs come in any order; those of the same registers are joined. Commas count as spaces, # begins a comment.\n",
];

// The bytes of the list that a text describes, from the file with that name or standard input.
pub fn make_from<I: Read, O: Write, E: Write>(
    input: &mut I,
    name: &[u8],
    output: &mut O,
    errors: &mut E,
) {
    with_text(input, name, output, errors, |text, output, errors| {
        let mut out = [0u8; MAX_BYTES];
        let said = list_text::make(text, &mut out);
        say(&out, said, output, errors);
    });
}

pub fn make_list<R: Env + Files + Input, O: Write, E: Write>(
    rt: &R,
    output: &mut O,
    errors: &mut E,
) {
    with_input(
        rt,
        0,
        &MAKE_USAGE,
        output,
        errors,
        |input, name, output, errors| {
            make_from(input, name, output, errors);
        },
    );
}

// ---- show_list

const SHOW_USAGE: [&str; 3] = [
    "use: show_list [FILE]\n",
    "Writes the delay list in FILE, or on standard input, as text: the counts of registers and of pairs, then a line for each\n",
    "register if one has needs: hold setup; then one for each pair: launch capture least greatest. make_list reads it back.\n",
];

// The text of a list.
pub fn show_from<I: Read, O: Write, E: Write>(
    input: &mut I,
    name: &[u8],
    output: &mut O,
    errors: &mut E,
) {
    with_list(input, name, output, errors, |list, output, errors| {
        let mut text = [0u8; list_text::TEXT_PLACES];
        let said = list_text::show(list, &mut text);
        say(&text, said, output, errors);
    });
}

pub fn show_list<R: Env + Files + Input, O: Write, E: Write>(
    rt: &R,
    output: &mut O,
    errors: &mut E,
) {
    with_input(
        rt,
        0,
        &SHOW_USAGE,
        output,
        errors,
        |input, name, output, errors| {
            show_from(input, name, output, errors);
        },
    );
}

// ---- convert_list

const CONVERT_USAGE: [&str; 3] = [
    "use: convert_list [FILE]\n",
    "Puts the pairs of the delay list in FILE, or on standard input, in the order that all jobs ask for: by launch, then capture.\n",
    "Those of the same registers are joined, with the smaller least and the larger greatest delay. Writes the bytes of that list.\n",
];

pub fn convert_from<I: Read, O: Write, E: Write>(
    input: &mut I,
    name: &[u8],
    output: &mut O,
    errors: &mut E,
) {
    with_list(input, name, output, errors, |list, output, errors| {
        let mut out = [0u8; MAX_BYTES];
        let said = convert_text::convert_bytes(list, &mut out);
        say(&out, said, output, errors);
    });
}

pub fn convert_list<R: Env + Files + Input, O: Write, E: Write>(
    rt: &R,
    output: &mut O,
    errors: &mut E,
) {
    with_input(
        rt,
        0,
        &CONVERT_USAGE,
        output,
        errors,
        |input, name, output, errors| {
            convert_from(input, name, output, errors);
        },
    );
}

// ---- free_schedule_of

const FREE_USAGE: [&str; 3] = [
    "use: free_schedule_of [FILE]\n",
    "Prints the common and the free period of the delay list in FILE, or on standard input, then a line for each register with\n",
    "its number and its free timing.\n",
];

pub fn free_from<I: Read, O: Write, E: Write>(
    input: &mut I,
    name: &[u8],
    output: &mut O,
    errors: &mut E,
) {
    with_list(input, name, output, errors, |list, output, errors| {
        let mut text = [0u8; schedule_text::TEXT_PLACES];
        let said = schedule_text::free_text(list, &mut text);
        say(&text, said, output, errors);
    });
}

pub fn free_schedule_of<R: Env + Files + Input, O: Write, E: Write>(
    rt: &R,
    output: &mut O,
    errors: &mut E,
) {
    with_input(
        rt,
        0,
        &FREE_USAGE,
        output,
        errors,
        |input, name, output, errors| {
            free_from(input, name, output, errors);
        },
    );
}

// ---- split_at

const SPLIT_USAGE: [&str; 3] = [
    "use: split_at PERIOD OFFSET [FILE]\n",
    "Prints the first split of the delay list in FILE, or on standard input, that works at the period and the offset, in whole\n",
    "picoseconds: a line for each register with its number and its timing; or that there is none.\n",
];

pub fn split_from<I: Read, O: Write, E: Write>(
    input: &mut I,
    name: &[u8],
    period: u32,
    offset: u32,
    output: &mut O,
    errors: &mut E,
) {
    with_list(input, name, output, errors, |list, output, errors| {
        let mut text = [0u8; schedule_text::TEXT_PLACES];
        let said = schedule_text::split_text(list, period, offset, &mut text);
        say(&text, said, output, errors);
    });
}

// The period and the offset that arguments 1 and 2 are.
fn period_and_offset<R: Env>(rt: &R) -> Option<(u32, u32)> {
    Some((arguments::number(rt, 1)?, arguments::number(rt, 2)?))
}

pub fn split_at<R: Env + Files + Input, O: Write, E: Write>(
    rt: &R,
    output: &mut O,
    errors: &mut E,
) {
    with_input(
        rt,
        2,
        &SPLIT_USAGE,
        output,
        errors,
        |input, name, output, errors| {
            match period_and_offset(rt) {
                Some((period, offset)) => split_from(input, name, period, offset, output, errors),
                None => complain_lines(errors, &SPLIT_USAGE),
            }
        },
    );
}

// ---- why_not

const WHY_USAGE: [&str; 3] = [
    "use: why_not PERIOD [FILE]\n",
    "Prints workable if some split of the delay list in FILE, or on standard input, works at the period, in whole picoseconds, with\n",
    "any offset; else what blocks the period: a register, and step by step the choices that force it from early to late and back.\n",
];

pub fn why_from<I: Read, O: Write, E: Write>(
    input: &mut I,
    name: &[u8],
    period: u32,
    output: &mut O,
    errors: &mut E,
) {
    with_list(input, name, output, errors, |list, output, errors| {
        let mut text = [0u8; why_text::TEXT_PLACES];
        let said = why_text::why_text(list, period, &mut text);
        say(&text, said, output, errors);
    });
}

pub fn why_not<R: Env + Files + Input, O: Write, E: Write>(rt: &R, output: &mut O, errors: &mut E) {
    with_input(
        rt,
        1,
        &WHY_USAGE,
        output,
        errors,
        |input, name, output, errors| {
            match arguments::number(rt, 1) {
                Some(period) => why_from(input, name, period, output, errors),
                None => complain_lines(errors, &WHY_USAGE),
            }
        },
    );
}

// ---- check_schedule

const CHECK_USAGE: [&str; 3] = [
    "use: check_schedule PERIOD TIMINGS [FILE]\n",
    "Checks the schedule in the file TIMINGS, a timing in picoseconds for each register, at the period against the delay list in\n",
    "FILE, or on standard input. Prints admissible, or the first pair that breaks a rule; then the smallest margin of all.\n",
];

// The list from `input`, the timings from `timings`, each with the name of its file.
pub fn check_from<I: Read, T: Read, O: Write, E: Write>(
    input: &mut I,
    name: &[u8],
    period: u32,
    timings: &mut T,
    timings_name: &[u8],
    output: &mut O,
    errors: &mut E,
) {
    with_list(input, name, output, errors, |list, output, errors| {
        with_text(
            timings,
            timings_name,
            output,
            errors,
            |timings, output, errors| {
                let mut text = [0u8; check_text::TEXT_PLACES];
                let said = check_text::check_text(list, period, timings, &mut text);
                say(&text, said, output, errors);
            },
        );
    });
}

// With the timings in the file that argument 2 names.
fn check_file<R: Env + Files + Input, I: Read, O: Write, E: Write>(
    rt: &R,
    input: &mut I,
    name: &[u8],
    period: u32,
    output: &mut O,
    errors: &mut E,
) {
    let mut path = [0u8; PATH_MAX];
    match streams::open(rt, 2, &mut path, errors) {
        Source::Given(mut timings, size) => check_from(
            input,
            name,
            period,
            &mut timings,
            streams::name_of(&path, size),
            output,
            errors,
        ),
        Source::Nothing => {}
        _ => complain_lines(errors, &CHECK_USAGE),
    }
}

pub fn check_schedule<R: Env + Files + Input, O: Write, E: Write>(
    rt: &R,
    output: &mut O,
    errors: &mut E,
) {
    with_input(
        rt,
        2,
        &CHECK_USAGE,
        output,
        errors,
        |input, name, output, errors| {
            match arguments::number(rt, 1) {
                Some(period) => check_file(rt, input, name, period, output, errors),
                None => complain_lines(errors, &CHECK_USAGE),
            }
        },
    );
}
