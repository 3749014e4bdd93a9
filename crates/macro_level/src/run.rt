// A run: one step for each request byte.
ghost use Rattle.std.specs.Prelude.{◌≡◌};
ghost use Rattle.macro_meaning.specs.Run.{macro_test, steps, macro_answer, run};

use crate::step::step;
use answers::{Refusal, Steps};
use macro_meaning::{MacroMachine, MacroState, Stepped};

// The largest request byte: there is no reset at this level.
const MOST_REQUEST: u8 = 1;

// What a run is lent, lowest number first.
#[tactic(auto, using(answers::proofs::FirstPlace::found, answers::proofs::FirstPlace::not_found), unfolding(macro_meaning::specs::Run::macro_test))]
fn tested(words: usize, s: MacroState, requests: &[u8]) -> Result<(), Refusal>
    ensures { result ≡ macro_test words s requests.now }
{
    answers::tests::lent(words, s.registers[0])?;
    match answers::tests::first_above(MOST_REQUEST, requests) {
        Some(place) => Err(Refusal::Request(place)),
        None => Ok(()),
    }
}

// One step for each byte, 1 for a request that is up.
fn stepped(memory: &mut [u32], s: MacroMachine, requests: &[u8]) -> MacroMachine
    ensures value { result ≡ (steps memory.old s requests.now).machine }
    ensures memory_after { memory.new ≡ (steps memory.old s requests.now).memory }
{
    let mut machine = s;
    for request in requests {
        machine = step(memory, machine, *request == 1);
    }
    machine
}

#[tactic(auto, unfolding(macro_meaning::specs::Run::run))]
pub fn run(memory: &mut [u32], s: MacroState, requests: &[u8]) -> Result<Stepped, Refusal>
    ensures value { result ≡ macro_answer (run memory.old s requests.now) }
    ensures memory_after { memory.new ≡ (run memory.old s requests.now).memory }
{
    tested(memory.len(), s, requests)?;
    let machine = stepped(memory, MacroMachine::from(s), requests);
    Ok(Stepped {
        steps: Steps {
            count: requests.len() as u64,
        },
        state: MacroState::from(machine),
    })
}
