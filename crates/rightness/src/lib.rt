// When the bureau's routes are right, in plain words, and that our own are: definitions and laws.
#![tactic(auto)]
