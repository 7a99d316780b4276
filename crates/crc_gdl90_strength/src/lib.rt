// What the frame check sequence always catches: stated in specs/, proved in proofs/. It holds no code.

#![tactic(auto)]
