// Runs the pooling of two lists on worked examples, on random lists against a plain merge, with schedules that are checked on the pooled
// list and on both, and with plans that are searched for over the pairs of both, and on lists of the largest size. What it prints is
// held to the file `stdout`.
#![tactic(auto)]

mod calls;
mod drawn;
mod examples;
mod jobs;
mod large;
mod merges;
mod others;
mod refused;
mod schedules;
mod show;

use std::io;

fn main(rt: HostRuntime) -> io::Result<()> {
    examples::pooled(&rt)?;
    examples::needs(&rt)?;
    examples::without_pairs(&rt)?;
    examples::rooms(&rt)?;
    refused::lists(&rt)?;
    refused::needs(&rt)?;
    refused::both(&rt)?;
    refused::first(&rt)?;
    merges::lists(&rt)?;
    others::lists(&rt)?;
    schedules::lists(&rt)?;
    jobs::lists(&rt)?;
    large::lists(&rt)?;
    large::refused(&rt)
}
