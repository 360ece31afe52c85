// Argument: a file with the second of two delay lists of one chip. Pools it with the one on standard input.
#![tactic(auto)]

use list_bytes::MAX_BYTES;
use std::io::{Read, Write};
use std::rt::{Env, Files};
use streams::{complain_lines, say, with_input, with_list};

const POOL_USAGE: [&str; 3] = [
    "use: pool_lists FILE\n",
    "Pools the delay list on standard input, list 1, with that in FILE, list 2, both of one chip: writes the bytes of a list that\n",
    "asks for what each of the two asks for. Pairs in both are joined, with the smaller least and the larger greatest delay.\n",
];

// The first list from `first`, the second from `second`, each with the name of its file.
pub fn pool_from<F: Read, S: Read, O: Write, E: Write>(
    first: &mut F,
    first_name: &[u8],
    second: &mut S,
    second_name: &[u8],
    output: &mut O,
    errors: &mut E,
) {
    with_list(first, first_name, output, errors, |first, output, errors| {
        with_list(
            second,
            second_name,
            output,
            errors,
            |second, output, errors| {
                let mut out = [0u8; MAX_BYTES];
                let said = pool_text::pool_bytes(first, second, &mut out);
                say(&out, said, output, errors);
            },
        );
    });
}

// The second list stands in the file that the argument names, which may not be left out.
pub fn pool_lists<R: Env + Files + Input, O: Write, E: Write>(
    rt: &R,
    output: &mut O,
    errors: &mut E,
) {
    with_input(
        rt,
        0,
        &POOL_USAGE,
        output,
        errors,
        |second, name, output, errors| {
            if name.is_empty() {
                complain_lines(errors, &POOL_USAGE);
                return;
            }
            pool_from(&mut rt.reader(), b"", second, name, output, errors);
        },
    );
}

fn main(rt: HostRuntime) {
    pool_lists(&rt, &mut rt.stdout(), &mut rt.stderr());
}
