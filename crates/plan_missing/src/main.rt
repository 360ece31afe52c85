// The program `plan` with the name of a file that does not exist.
#![tactic(auto)]

fn main(rt: HostRuntime) {
    print_plan::plan(&rt, &mut rt.stdout(), &mut rt.stdout());
}
