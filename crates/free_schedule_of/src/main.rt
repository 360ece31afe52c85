// Prints the common and the free period and the free schedule of the delay list in the file that is named, or on standard input.
#![tactic(auto)]

fn main(rt: HostRuntime) {
    text_programs::free_schedule_of(&rt, &mut rt.stdout(), &mut rt.stderr());
}
