// The totals program, run on three fills of two orders, of 20, 30 and 4 contracts, and the first acknowledged. The lines are by hand: an order stands where its
// first fill was booked, and has what waits of all its fills.
#![tactic(auto)]

fn main(rt: HostRuntime) {
    lister::total_input(&rt);
}
