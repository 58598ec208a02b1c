// Laws only: what question 14 says of the lent lists, and what the boxes and grids of a page are given.
#![tactic(auto)]
