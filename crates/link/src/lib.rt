// No code: what the sender and the receiver do together, demand 3 of the minutes. It stands in specs/.
#![tactic(auto)]
