//! What follows from tests, options and lists alone: the lemmas that several crates cite and the kit doesn't have.
#![tactic(auto)]
