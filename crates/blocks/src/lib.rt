// The datapath's plain blocks: memory, the multiplexors that feed the two buses, and a choice between
// two words. Every function is total; specs/ says what each answers.
#![tactic(auto)]

pub mod choice;
pub mod memory;
pub mod sources;
