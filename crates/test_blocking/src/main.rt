// Runs the reason for a period that can't be had: on worked examples, on every small list and on random ones against a plain search
// over all splits and offsets, and on lists of the largest size. Each chain is followed step by step by code that stands here.
// What it prints is held to the file `stdout`.
#![tactic(auto)]

mod chains;
mod examples;
mod large;
mod small;

use std::io;

fn main(rt: HostRuntime) -> io::Result<()> {
    examples::answers(&rt)?;
    examples::refusals(&rt)?;
    small::lists(&rt)?;
    large::lists(&rt)
}
