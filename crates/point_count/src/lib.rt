// How many points a curve has, and which curves are singular: theory alone, in specs/ and proofs/.
#![tactic(auto)]
