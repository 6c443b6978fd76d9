//! General definitions and laws on lists, options, sums and orders, for every crate above.
#![tactic(auto)]
