// Prints the plan of the delay list in the file that is named, or on standard input.
#![tactic(auto)]

fn main(rt: HostRuntime) {
    print_plan::plan(&rt, &mut rt.stdout(), &mut rt.stderr());
}
