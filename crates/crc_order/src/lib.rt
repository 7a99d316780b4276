// The order of x modulo the generator: stated in specs/, proved in proofs/. It holds no code.

#![tactic(auto)]
