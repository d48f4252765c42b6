// The mesh is closed: theorems of the march of tetrahedra. There is no code in it.
#![tactic(auto)]
