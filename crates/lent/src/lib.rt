// How contracts speak of what is lent: definitions only, in specs.
#![tactic(auto)]
