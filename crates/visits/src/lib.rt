// Laws only: what a plan visits over tables, and the rows that it yields.
#![tactic(auto)]
