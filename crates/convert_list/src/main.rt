// Puts the pairs of the delay list in the file that is named, or on standard input, in order, and joins those of the same registers.
#![tactic(auto)]

fn main(rt: HostRuntime) {
    text_programs::convert_list(&rt, &mut rt.stdout(), &mut rt.stderr());
}
