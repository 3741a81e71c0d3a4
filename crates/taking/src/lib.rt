// A taken vertex is expanded: it leaves the open list, and its neighbours are looked at.
#![tactic(auto)]

pub mod inner;
