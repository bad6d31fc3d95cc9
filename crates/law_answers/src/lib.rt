// What the questions answer of an accepted build: definitions and laws only, in specs.
#![tactic(auto)]
