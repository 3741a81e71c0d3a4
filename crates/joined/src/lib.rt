// Legs of any length against single moves: the ends of a leg with sight are joined by visible neighbours. There is no code here.
#![tactic(auto)]
