// One format for every kind of message: its fixed octets, its fields in the document's order, and its ranges. No code.

#![tactic(auto)]
