// Theory alone: every record that a run writes is accepted.
#![tactic(auto)]
