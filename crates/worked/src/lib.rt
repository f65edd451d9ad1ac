// Boards, segments, printed lines and desks worked by hand, those of document 01 as one theorem over a table, and desks broken in each way. There is no code here.
#![tactic(auto)]
