// What a build means: its vertices as one list, from the candidates over the split to the last rollback round. There is no code in it.
#![tactic(auto)]
