// The numbers to check by, from sides to cases, in one table. There is no code in it.
#![tactic(auto)]
