// What holds of a MAVLink writer's call and a reader's call for C, one behind the other: stated in specs/, proved in proofs/. It holds no code.

#![tactic(auto)]
