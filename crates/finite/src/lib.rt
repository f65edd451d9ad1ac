// What is demanded of drops: how large loads, currents and drops can get, that a run's distance becomes an f32 without loss, where drops are 0
// and what the others are. There is no code here.
#![tactic(auto)]
