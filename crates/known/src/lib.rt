// What is known of sets that grow by the flow rules, and of what is noted on the way: that the rules give it. Theory alone: `specs` has the
// definitions, `proofs` the laws.
#![tactic(auto)]
