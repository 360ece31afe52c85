// The program `plan` when it is asked for help, with a list that it does not read.
#![tactic(auto)]

fn main(rt: HostRuntime) {
    print_plan::plan(&rt, &mut rt.stdout(), &mut rt.stdout());
}
