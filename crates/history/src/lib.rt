// The history of calls: theorems over any calls, from the empty desk, from any sound desk, and on any desk. There is no code here.
#![tactic(auto)]
