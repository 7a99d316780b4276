// What a line of calls to the receiver answers, counts and keeps, whatever came before: theorems over its contract. It holds no code.

#![tactic(auto)]
