// The search as document 01 says it, and what it promises, over any problem: no board, length or sight is known here. There is no code here.
#![tactic(auto)]
