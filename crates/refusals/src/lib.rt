// Demand 1 of the letter over every public operation that can refuse; no code. The theorem is `demand_1` in specs/Demand1.antt.
#![tactic(auto)]
