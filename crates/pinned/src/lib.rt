// No code: named rows that pin clauses of definitions, worked out apart. They stand in specs/.
#![tactic(auto)]
