// States numbered in the order in which they are met. Theory alone: `specs` has the definitions, `proofs` the laws.
#![tactic(auto)]
