// No code: what a named row of a table is, and runs that rows share. They stand in specs/.
#![tactic(auto)]
