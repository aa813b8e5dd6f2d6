// The notation in which patterns are typed: which texts there are, the tree of each, and what a tree means. Theory alone: `specs` has
// the definitions, `proofs` the laws.
#![tactic(auto)]
