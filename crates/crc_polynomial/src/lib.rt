// Binary polynomials: definitions in specs/, their laws in proofs/. It holds no code.

#![tactic(auto)]
