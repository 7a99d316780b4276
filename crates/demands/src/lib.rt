// The tender's demands: stated together in specs/Demands.antt, proved in proofs/. It holds no code.

#![tactic(auto)]
