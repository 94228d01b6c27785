// Same plan, other numbers: laws over the definitions of crate plan and of specs/. There is no code here: see proofs/.
#![tactic(auto)]
