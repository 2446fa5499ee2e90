// The tries of Best (request S-7): the ranking of places, the patterns of changes in their order, costs and the gap. This crate has the theory alone.
#![tactic(auto)]
