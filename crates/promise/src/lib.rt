// No code: what the definitions of the other crates promise together. The three demands and the worked cases of the paper are in specs/, their proofs in proofs/.
#![tactic(auto)]
