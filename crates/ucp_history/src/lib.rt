// What a line answers and counts, by its history: definitions in specs/. It holds no code.

#![tactic(auto)]
