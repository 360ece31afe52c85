// Runs the conversion of stored lists on worked examples, on random lists against a plain conversion, on small lists whose plans and
// splits are searched for over the pairs as they are stored, and on lists of the largest size. What it prints is held to the file
// `stdout`.
#![tactic(auto)]

mod drawn;
mod examples;
mod jobs;
mod large;
mod refused;
mod show;
mod small;

use std::io;

fn main(rt: HostRuntime) -> io::Result<()> {
    examples::repeats(&rt)?;
    examples::orders(&rt)?;
    examples::unchanged(&rt)?;
    examples::rooms(&rt)?;
    refused::lists(&rt)?;
    refused::needs(&rt)?;
    refused::first(&rt)?;
    small::lists(&rt)?;
    jobs::lists(&rt)?;
    large::lists(&rt)
}
