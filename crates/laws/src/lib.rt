// Laws over the definitions of crate plan. There is no code here: see proofs/.
#![tactic(auto)]
