// The replay program, run on the edges of its language: lines before the first `ids`, lines of 300,000 bytes and more, a journal that is full. The
// expected transcript was laid out by hand, line for line, from docs/REPLAY.md and the paper.
#![tactic(auto)]

fn main(rt: HostRuntime) {
    player::play_input(&rt);
}
