// Laws only: what the rows of a query mean, and why one is refused.
#![tactic(auto)]
