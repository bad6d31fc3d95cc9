// Boxes inside boxes: definitions and laws only, in specs. The statement is in specs/BoxesInsideBoxes.
#![tactic(auto)]
