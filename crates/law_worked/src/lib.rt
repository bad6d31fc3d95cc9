// SCOPE's worked lines: definitions and laws only, in specs.
#![tactic(auto)]
