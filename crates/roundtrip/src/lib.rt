// Pin maps there and back: a written map opens to its pins, and an accepted map is written as the same bytes. There is no code here.
#![tactic(auto)]
