// Laws only: what planning leaves for those above it: plans that pass the check, at the beginning of their listing.
#![tactic(auto)]
