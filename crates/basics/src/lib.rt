// What other crates share and no rule owns: tests joined by words, tests and counts of lists, lists of a fixed length, members, sums; and what chains of iterators and the
// maps of arrays answer. There is no code here.
#![tactic(auto)]
