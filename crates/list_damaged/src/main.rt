// The list program, run on the paper's 320 bytes and the last note, K 1, once more: a mark that is there already is unlawful, and its first
// byte's place, from 0, is 320. By hand, from the paper.
#![tactic(auto)]

fn main(rt: HostRuntime) {
    lister::list_input(&rt);
}
