// The worked cases of document 01, proved about the definitions. Definitions and one theorem alone, no code.
#![tactic(auto)]
