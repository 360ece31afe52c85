// Runs the full plan on random small lists against a plain search over all splits and the offsets up to fifteen, in halves, and
// on lists of the largest size. What it prints is held to the file `stdout`.
#![tactic(auto)]

mod large;
mod small;

use std::io;

fn main(rt: HostRuntime) -> io::Result<()> {
    small::lists(&rt)?;
    large::lists(&rt)
}
