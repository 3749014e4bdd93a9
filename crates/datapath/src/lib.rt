// What a microword makes the datapath do: the result with its flags, and where it goes. Every function
// is total; specs/ says what each answers.
#![tactic(auto)]

pub mod operation;
pub mod results;
