// Argument: a period. Prints whether some split works at it with any offset, or what blocks it, for the delay list in the file that is named
// last, or on standard input.
#![tactic(auto)]

fn main(rt: HostRuntime) {
    text_programs::why_not(&rt, &mut rt.stdout(), &mut rt.stderr());
}
