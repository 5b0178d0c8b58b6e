// The replay program, run on 6,052 lines: blocks of a deck on whose transcript two independently written models agree, lines that are not in the
// language, and the days of tests/engine and demo. docs/REPLAY.md, "What the runs are held to", says where each expected line comes from.
#![tactic(auto)]

fn main(rt: HostRuntime) {
    player::play_input(&rt);
}
