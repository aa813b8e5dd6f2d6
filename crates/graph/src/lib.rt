// Runs of a plan's jobs and the flow of an observer's states over them. Theory alone: `specs` has the definitions, `proofs` the laws.
#![tactic(auto)]
