// Stepwise fitting and its book: definitions and laws. The functions come with the grids.
#![tactic(auto)]
