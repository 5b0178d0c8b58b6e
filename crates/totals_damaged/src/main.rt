// The totals program, run on the same fills and K 4: a mark above the last fill is unlawful, and its first byte's place, from 0, is 9 + 3 * 102 = 315. By hand.
#![tactic(auto)]

fn main(rt: HostRuntime) {
    lister::total_input(&rt);
}
