// Worked examples of every kind of message on both lines, with the edges of each range: stated in specs/, proved in proofs/. It holds
// no code.

#![tactic(auto)]
