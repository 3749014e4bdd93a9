// The program status word: its six bits, their number, the rule by which they change, and the jump
// decision that reads them. Every function is total; specs/ says what each answers.
#![tactic(auto)]

pub mod jump;
pub mod psw;
