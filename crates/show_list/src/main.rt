// Writes the delay list in the file that is named, or on standard input, as text.
#![tactic(auto)]

fn main(rt: HostRuntime) {
    text_programs::show_list(&rt, &mut rt.stdout(), &mut rt.stderr());
}
