// Arguments: a period and an offset. Prints the first split at them of the delay list in the file that is named last, or on standard
// input; or that there is none.
#![tactic(auto)]

fn main(rt: HostRuntime) {
    text_programs::split_at(&rt, &mut rt.stdout(), &mut rt.stderr());
}
