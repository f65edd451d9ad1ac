// The tree: what its runs are, beyond the contracts of the crate tree: that they join the pins, that there is no other such tree, that boxes of runs
// without a common pin are apart, how many bent runs a pin has. There is no code here.
#![tactic(auto)]
