// Worked examples of the C structs, which field stands at which offset, and of C's numbers: stated in specs/, proved in proofs/. It holds no code.

#![tactic(auto)]
