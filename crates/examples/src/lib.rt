// Laws only: the bench examples of document 01 that are to be proved.
#![tactic(auto)]
