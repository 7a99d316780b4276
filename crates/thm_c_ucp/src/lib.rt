// What holds of whole lists of the calls that C and Rust link: stated in specs/, proved in proofs/. It holds no code.

#![tactic(auto)]
