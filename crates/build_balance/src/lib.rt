// The surface of a build is closed: no function, only what is proved of the definition.
#![tactic(auto)]
