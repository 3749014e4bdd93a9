// The micro level: a run of one microcycle for each request byte. Every function is total; the crate
// micro_meaning says what each answers.
#![tactic(auto)]

ghost use Rattle.std.specs.Prelude.{◌≡◌};
ghost use Rattle.micro_meaning.specs.Run.{micro_test, answer_of, run};

use answers::{Microcycles, Refusal, Steps};
use micro_meaning::{MicroAnswer, MicroMachine, MicroState, Ran};

mod microcycle;
mod run_loop;

// The largest request byte: interrupt and reset.
const MOST_REQUEST: u8 = 3;

// What a run is lent, lowest number first.
#[tactic(auto, unfolding(micro_meaning::specs::Run::micro_test), using(answers::proofs::FirstPlace::found, answers::proofs::FirstPlace::not_found))]
fn tested(words: usize, program: &[u64], s: MicroState, requests: &[u8]) -> Result<(), Refusal>
    ensures { result ≡ micro_test words program.now s requests.now }
{
    control_store::machine_tested(words, s.registers[0], program)?;
    if program.len() <= s.mpc as usize {
        return Err(Refusal::Outside);
    }
    match answers::tests::first_above(MOST_REQUEST, requests) {
        Some(place) => Err(Refusal::Request(place)),
        None => Ok(()),
    }
}

// The state after the last completed microcycle; with none completed, the state as lent.
fn answer(s: MicroState, ran: Ran<MicroMachine>) -> MicroAnswer
    ensures { result ≡ answer_of s ran }
{
    let Ran {
        end,
        microcycles,
        steps,
        state,
    } = ran;
    let untouched = end.is_err() && microcycles.count == 0;
    Ran {
        end,
        microcycles,
        steps,
        state: if untouched {
            s
        } else {
            MicroState::from(state)
        },
    }
}

#[tactic(auto, unfolding(micro_meaning::specs::Run::run))]
pub fn run(program: &[u64], memory: &mut [u32], s: MicroState, requests: &[u8]) -> MicroAnswer
    ensures value { result ≡ (run program.now memory.old s requests.now).answer }
    ensures memory_after { memory.new ≡ (run program.now memory.old s requests.now).memory }
{
    if let Err(refusal) = tested(memory.len(), program, s, requests) {
        return Ran {
            end: Err(refusal),
            microcycles: Microcycles::NONE,
            steps: Steps::NONE,
            state: s,
        };
    }
    answer(
        s,
        run_loop::run_on(program, memory, MicroMachine::from(s), requests),
    )
}
