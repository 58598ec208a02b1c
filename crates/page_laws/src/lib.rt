// Laws for readers of a page's contract; there is nothing to run.
#![tactic(auto)]
