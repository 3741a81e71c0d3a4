// Document 01's board as a problem for the search, and what the search promises on it. There is no code here.
#![tactic(auto)]
