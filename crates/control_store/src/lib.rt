// The control store: a microword's 24 fields, which words are legal, where the sequencer goes, and a
// caller's microprogram, the word at an address and the test of all. Every function is total; specs/
// says what each answers.
#![tactic(auto)]

ghost use Rattle.std.specs.Prelude.{◌≡◌};
ghost use Rattle.std.specs.List.{position};
ghost use Rattle.control_store.specs.ControlStore.{word_at, illegal, store_test, machine_test};

use crate::microword::legal;
use answers::Refusal;

pub mod code;
pub mod microword;
pub mod sequencer;

// The most words that a 6-bit counter can name.
pub const MOST_MICROWORDS: usize = 64;

// The microword at an address.
pub fn word_at(program: &[u64], mpc: u32) -> u64
    ensures { result ≡ word_at program.now mpc }
{
    let at = mpc as usize;
    if at < program.len() { program[at] } else { 0 }
}

// The lowest word that is not legal, where there is one.
fn lowest_illegal(program: &[u64]) -> Option<usize>
    ensures { result ≡ position illegal program.now }
{
    program.iter().position(|word| !legal(*word))
}

// Its length first, then its words.
pub fn tested(program: &[u64]) -> Result<(), Refusal>
    ensures { result ≡ store_test program.now }
{
    let fits = (0 < program.len()) & (program.len() <= MOST_MICROWORDS);
    if !fits {
        return Err(Refusal::ProgramLength);
    }
    match lowest_illegal(program) {
        Some(word) => Err(Refusal::Microword(word)),
        None => Ok(()),
    }
}

// Memory's length, register 0 and the microprogram: 1, 3, 4 and 5, which every call that runs
// microwords tests first.
#[tactic(auto, unfolding(crate::specs::ControlStore::machine_test))]
pub fn machine_tested(words: usize, zero: u32, program: &[u64]) -> Result<(), Refusal>
    ensures { result ≡ machine_test words zero program.now }
{
    answers::tests::lent(words, zero)?;
    tested(program)
}
