// Laws only: facts on lists that proofs of several crates cite.
#![tactic(auto)]
