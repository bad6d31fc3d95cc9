// The groups of one zoom: definitions and laws only, in specs.
#![tactic(auto)]
