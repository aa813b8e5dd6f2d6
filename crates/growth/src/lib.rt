// Sets of states that grow by the flow rules, and the table that moves states. Theory alone: `specs` has the definitions, `proofs` the laws.
#![tactic(auto)]
