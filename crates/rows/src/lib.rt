// Rows of things by their number, and arrays that begin with a list. Theory alone: `specs` has the definitions, `proofs` the laws.
#![tactic(auto)]
