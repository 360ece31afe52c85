// Makes the bytes of a delay list of the text in the file that is named, or on standard input.
#![tactic(auto)]

fn main(rt: HostRuntime) {
    text_programs::make_list(&rt, &mut rt.stdout(), &mut rt.stderr());
}
