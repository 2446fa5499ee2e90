// Codewords near a word: at most one lies within the radius, and how it is found. This crate has the theory alone.
#![tactic(auto)]
