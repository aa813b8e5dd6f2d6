// Plans and patterns, and what the checks answer to each. Theory alone, and a crate of its own, so that it is evaluated once and not with every edit of the readers.
#![tactic(auto)]
