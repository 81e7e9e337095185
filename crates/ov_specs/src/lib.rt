//! All definitions that the contracts of the other crates cite. It has no function.
#![tactic(auto)]
