// The phase level: the four phases, and the call that does one of them or refuses. Every function is
// total; the crate phase_meaning says what each answers.
#![tactic(auto)]

pub mod call;
mod phases;
