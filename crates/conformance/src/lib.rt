// No code: 01's examples and worked ones, every entry point's refusals, and theorems that join crates. They stand in specs/.
#![tactic(auto)]
