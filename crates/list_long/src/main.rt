// The list program, run on 65,537 bytes, each a lawful note D: "over 65,536 bytes it prints only `too long`". By hand, from the paper.
#![tactic(auto)]

fn main(rt: HostRuntime) {
    lister::list_input(&rt);
}
