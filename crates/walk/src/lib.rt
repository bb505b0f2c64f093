// Folds over an index range, and the laws of the loops that compute them. Definitions and laws alone, no code.
#![tactic(auto)]
