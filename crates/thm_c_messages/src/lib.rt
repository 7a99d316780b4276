// What holds of a writer's call and a reader's call for C, one behind the other: theorems in proofs/, statements in specs/. It holds no code.

#![tactic(auto)]
