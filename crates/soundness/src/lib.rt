// Demand 3: what an accepted claim means for patients. Definitions and theorems alone, no code.
#![tactic(auto)]
