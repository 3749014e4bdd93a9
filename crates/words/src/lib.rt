// The 32-bit words of AVM-1: their two predicates, the shifter, the fields of an instruction, the
// register file's rule, and the lengths that a memory of words may have. Every function is total;
// specs/ says what each answers.
#![tactic(auto)]

pub mod instruction;
pub mod lengths;
pub mod predicates;
pub mod registers;
pub mod shifter;
