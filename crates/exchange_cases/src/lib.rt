// Cases A to I of document 01, "Frames to prove": one table with one proof over it, in proofs/Cases.antt. No code.
#![tactic(auto)]
