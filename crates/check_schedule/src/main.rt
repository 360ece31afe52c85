// Arguments: a period and a file with a timing for each register. Checks them against the delay list in the file that is named last, or
// on standard input.
#![tactic(auto)]

fn main(rt: HostRuntime) {
    text_programs::check_schedule(&rt, &mut rt.stdout(), &mut rt.stderr());
}
