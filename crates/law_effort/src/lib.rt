// A box within a stated effort, of an accepted build: definitions and laws only, in specs. The statement is in specs/OfBuild.
#![tactic(auto)]
