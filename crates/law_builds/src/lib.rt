// Every table of an accepted build: definitions and laws only, in specs.
#![tactic(auto)]
