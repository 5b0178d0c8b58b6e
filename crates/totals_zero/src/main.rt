// The totals program, run on the same fills with the first two acknowledged, and a part of a note after that, which is dropped. By hand: an order of which nothing
// waits has a line too.
#![tactic(auto)]

fn main(rt: HostRuntime) {
    lister::total_input(&rt);
}
