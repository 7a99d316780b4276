// The frames that document 01 wants proved, as one list: stated in specs/, proved in proofs/. It holds no code.

#![tactic(auto)]
