// What any search that takes open vertices one after another finds and counts. There is no code here.
#![tactic(auto)]
