// Laws only: what the rulings and tables of a page are sure to be, for the calls above.
#![tactic(auto)]
