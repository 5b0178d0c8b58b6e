// The list program, run on no bytes. The expected page is the paper's own text: `waiting 0 contracts 0`.
#![tactic(auto)]

fn main(rt: HostRuntime) {
    lister::list_input(&rt);
}
