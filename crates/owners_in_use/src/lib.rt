// Demand 3 of what runs, the C name's load and the lister's: laws only, in specs.
#![tactic(auto)]
