// Laws that the kit's library lacks, on lists, orders and numbers. They stand in specs/; there is no code.

#![tactic(auto)]
