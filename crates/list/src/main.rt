// The list program, run on the notes that the paper lists: 320 bytes. The expected page is the paper's own text, "What the listing prints".
#![tactic(auto)]

fn main(rt: HostRuntime) {
    lister::list_input(&rt);
}
