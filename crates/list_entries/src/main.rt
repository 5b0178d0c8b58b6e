// The list program, run on notes with entries among the fills: F, C, F, C, and the first two acknowledged. Its three lines are by hand, from the request:
// "The list prints `C`, the number and the four key fields; its first line counts fills alone".
#![tactic(auto)]

fn main(rt: HostRuntime) {
    lister::list_input(&rt);
}
