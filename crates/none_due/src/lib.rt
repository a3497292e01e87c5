// No code: no report stays due behind the fetches that a replay makes (02, 2026-05). It stands in specs/.
#![tactic(auto)]
