// What whole lists of calls to the frame writer put on the line: stated in specs/, proved in proofs/. It holds no code.

#![tactic(auto)]
