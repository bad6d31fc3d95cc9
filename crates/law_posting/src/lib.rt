// What a posting to an accepted build leaves: definitions and laws only, in specs. The statement is in specs/PostedFresh.
#![tactic(auto)]
