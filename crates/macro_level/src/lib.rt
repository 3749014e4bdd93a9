// The macro level: one instruction or interrupt step for each request byte, done directly and not by
// microcycles. Every function is total; the crate macro_meaning says what each answers.
#![tactic(auto)]

mod instructions;
pub mod opcode;
pub mod run;
pub mod step;
