// Runs reading and writing on worked examples and on random lists. What it prints is held to the file `stdout`.
#![tactic(auto)]

mod examples;
mod show;
mod trips;

use std::io;
use timing::MAX_NEED;
use trips::Damage;

fn main(rt: HostRuntime) -> io::Result<()> {
    examples::lists(&rt)?;
    examples::needy_lists(&rt)?;
    examples::refused_lists(&rt)?;
    examples::needs(&rt)?;
    examples::kinds_of_needs(&rt)?;
    examples::needs_of_zeros(&rt)?;
    examples::holds(&rt)?;
    examples::before_holds(&rt)?;
    examples::pairs(&rt)?;
    examples::kinds(&rt)?;
    examples::orders(&rt)?;
    examples::around_orders(&rt)?;
    examples::refused_writing(&rt)?;
    examples::refused_needs(&rt)?;
    examples::refused_holds(&rt)?;
    examples::refused_orders(&rt)?;
    trips::small(&rt, "random lists: ", Damage::None, 0)?;
    trips::small(&rt, "one word changed: ", Damage::One, 0)?;
    trips::small(&rt, "two words changed, the sum kept: ", Damage::Two, 0)?;
    trips::small(&rt, "random lists with needs: ", Damage::None, MAX_NEED)?;
    trips::small(&rt, "one word changed: ", Damage::One, MAX_NEED)?;
    trips::small(
        &rt,
        "two words changed, the sum kept: ",
        Damage::Two,
        MAX_NEED,
    )?;
    trips::largest(&rt, "512 registers, 2048 pairs, words there and back: ", 0)?;
    trips::largest(&rt, "the same with needs: ", MAX_NEED)
}
