// The program `plan` with the name of a file.
#![tactic(auto)]

fn main(rt: HostRuntime) {
    print_plan::plan(&rt, &mut rt.stdout(), &mut rt.stdout());
}
