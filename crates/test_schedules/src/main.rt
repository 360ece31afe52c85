// Runs the check of a schedule and the free schedule on worked examples, on random small lists against a plain search,
// and on chains and rings of 512 registers. What it prints is held to the file `stdout`.
#![tactic(auto)]

mod examples;
mod large;
mod plain;
mod small;

use std::io;

fn main(rt: HostRuntime) -> io::Result<()> {
    examples::free_schedules(&rt)?;
    examples::needy_free_schedules(&rt)?;
    examples::checks(&rt)?;
    examples::needy_checks(&rt)?;
    examples::ties(&rt)?;
    examples::margins(&rt)?;
    examples::refusals(&rt)?;
    small::free_schedules(&rt)?;
    small::checks(&rt)?;
    large::chains(&rt)?;
    large::rings(&rt)?;
    large::needy(&rt)
}
