// The three demands of document 01, of the route call and of C's, and what is promised of C's check of routes. There is no code here.
#![tactic(auto)]
