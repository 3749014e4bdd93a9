// One phase, or a refusal.
ghost use Rattle.std.specs.Prelude.{◌≡◌};
ghost use Rattle.phase_meaning.specs.Tests.{phase_test};
ghost use Rattle.phase_meaning.specs.Call.{phase_done, stores, leaves, phase_call};

use crate::phases;
use answers::Refusal;
use blocks::memory::{Store, apply};
use control_store::machine_tested;
use control_store::microword::legal;
use phase_meaning::{PhaseMachine, PhaseState};

// The number of phase four, the last.
const LAST_PHASE: u32 = 3;

// The largest request byte: interrupt and reset.
const MOST_REQUEST: u8 = 3;

// All of a phase call: after the microprogram its MIR, as the word numbered by the length, then 6
// and 7.
#[tactic(auto, unfolding(phase_meaning::specs::Tests::phase_test))]
fn tested(words: usize, program: &[u64], s: PhaseState, request: u8) -> Result<(), Refusal>
    ensures { result ≡ phase_test words program.now s request }
{
    machine_tested(words, s.registers[0], program)?;
    if !legal(s.mir) {
        return Err(Refusal::Microword(program.len()));
    }
    let inside = ((s.mpc as usize) < program.len()) & (s.phase <= LAST_PHASE);
    if !inside {
        return Err(Refusal::Outside);
    }
    if MOST_REQUEST < request {
        return Err(Refusal::Request(0));
    }
    Ok(())
}

// The phase that is next. Its number stays a number: C lends it and gets it back, and the source's
// clock is one (GetPhaseClock, pp. 114-118).
#[tactic(auto, unfolding(phase_meaning::specs::Call::phase_done))]
fn phase_done(program: &[u64], memory: &[u32], s: PhaseMachine, request: u8) -> PhaseMachine
    ensures { result ≡ phase_done program.now memory.now s request }
{
    match s.phase {
        0 => phases::one(program, s, request),
        1 => phases::two(s),
        2 => phases::three(s),
        _ => phases::four(memory, s),
    }
}

// Only phase four stores.
#[tactic(auto, unfolding(phase_meaning::specs::Call::stores))]
fn stores(s: PhaseMachine) -> Option<Store>
    ensures { result ≡ stores s }
{
    if s.phase == LAST_PHASE {
        phases::store(s)
    } else {
        None
    }
}

// Phase four would give a next address outside.
#[tactic(auto, unfolding(phase_meaning::specs::Call::leaves))]
fn leaves(words: usize, s: PhaseMachine) -> bool
    ensures { result ≡ leaves words s }
{
    (s.phase == LAST_PHASE) & (words <= phases::next_address(s) as usize)
}

#[tactic(auto, unfolding(phase_meaning::specs::Call::phase_call))]
pub fn phase(
    program: &[u64],
    memory: &mut [u32],
    s: PhaseState,
    request: u8,
) -> Result<PhaseState, Refusal>
    ensures value { result ≡ (phase_call program.now memory.old s request).answer }
    ensures memory_after { memory.new ≡ (phase_call program.now memory.old s request).memory }
{
    tested(memory.len(), program, s, request)?;
    let machine = PhaseMachine::from(s);
    if leaves(program.len(), machine) {
        return Err(Refusal::NextAddress);
    }
    let next = phase_done(program, memory, machine, request);
    apply(memory, stores(machine));
    Ok(PhaseState::from(next))
}
