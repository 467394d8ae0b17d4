// Laws that every crate cites: tables, folds, choices, bytes, writes, masks, members of lists, ascending lists, sums, the pigeonhole. No code, and no definition of the product.
#![tactic(auto)]
