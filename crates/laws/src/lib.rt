// The shared laws: definitions and lemmas that several crates cite. There is no code in it.
#![tactic(auto)]
