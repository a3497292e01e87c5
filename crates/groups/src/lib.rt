// No code: demand 3 for each group of a card (request 2026-06), over its own ports. It stands in specs/.
#![tactic(auto)]
