// Texts, and what their reader and the judge answer to each. Theory alone, and a crate of its own, so that it is evaluated once and not with every edit of the code.
#![tactic(auto)]
