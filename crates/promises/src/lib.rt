// What the judges promise of their answers: the order of refusals, and the three demands. Theory alone: `specs` has the definitions, `proofs` the
// laws, among them that every run is inside the sets, that nothing of an answer is left free, and the known verdicts by evaluation.
#![tactic(auto)]
