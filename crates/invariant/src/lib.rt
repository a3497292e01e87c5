// No code: what holds of the receiver after any calls, proved in specs/ on the definitions of the crates below.
#![tactic(auto)]
