// The list program, run on the same notes cut to 319 bytes. "3 waiting, 54 contracts" is the paper's; the lines of the three fills are by hand.
#![tactic(auto)]

fn main(rt: HostRuntime) {
    lister::list_input(&rt);
}
