// The owners of the lamps and the lamps of the entries in an accepted build: definitions and laws only, in specs.
#![tactic(auto)]
