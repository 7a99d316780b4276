// What the lister writes for a whole input, by the input's history: stated in specs/, proved in proofs/. It holds no code.

#![tactic(auto)]
