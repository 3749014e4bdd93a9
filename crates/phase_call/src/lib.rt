// The call of a phase: what C lends is tested and copied in, the phase is done, and all goes back
// to where it was lent. The crate schoonleech exports it as avm_phase.
#![tactic(auto)]

ghost use Rattle.std.specs.Prelude.{◌≡◌};
ghost use Rattle.phase_call.specs.Phase.{phase_state, phase_words, latch_words, phase_found, avm_phase};

use answers::{Microcycles, Steps};
use calls::{Answer, answer_of};
use phase_meaning::PhaseState;

// A phase state from everything that a phase call is lent for it.
fn phase_state(
    registers: [u32; 32],
    state: &[u32; 7],
    latches: &[u32; 4],
    mir: u64,
    phase: u32,
) -> PhaseState
    ensures { result ≡ phase_state registers state.now latches.now mir phase }
{
    let [psw, pc, ir, mar, mbr, mpc, ivec] = *state;
    let [alatch, blatch, request, acknowledge] = *latches;
    PhaseState {
        registers,
        psw,
        pc,
        ivec,
        ir,
        mar,
        mbr,
        mpc,
        alatch,
        blatch,
        ireq: request != 0,
        iack: acknowledge != 0,
        mir,
        phase,
    }
}

// The state words again, and the latch words. No From: the order is C's, which the crate that owns
// PhaseState doesn't know. micro_call has the first line for its own struct: one function for both would
// be lent the seven words one by one.
fn phase_words(s: PhaseState) -> [u32; 7]
    ensures { result ≡ phase_words s }
{
    [s.psw, s.pc, s.ir, s.mar, s.mbr, s.mpc, s.ivec]
}

fn latch_words(s: PhaseState) -> [u32; 4]
    ensures { result ≡ latch_words s }
{
    [s.alatch, s.blatch, s.ireq as u32, s.iack as u32]
}

// Each place by itself, as the C interface lends it.
#[tactic(auto, using(crate::proofs::PhaseCases::call_refused, crate::proofs::PhaseCases::phase_refused, crate::proofs::PhaseCases::phase_went))]
pub fn phase(
    program: &[u64],
    memory: &mut [u32],
    registers: &mut [u32],
    state: &mut [u32; 7],
    latches: &mut [u32; 4],
    mir: &mut u64,
    phase: &mut u32,
    request: u8,
) -> Answer
    ensures { phase_found result memory.new registers.new state.new latches.new
        mir.new phase.new
        ≡ avm_phase program.now memory.old registers.old state.old
        latches.old mir.old phase.old request }
{
    if let Err(refusal) = calls::test(memory.len(), registers.len()) {
        return Answer::from(refusal);
    }
    let lent = phase_state(calls::registers_in(registers), state, latches, *mir, *phase);
    match phase_level::call::phase(program, memory, lent, request) {
        Ok(after) => {
            calls::registers_out(registers, after.registers);
            *state = phase_words(after);
            *latches = latch_words(after);
            *mir = after.mir;
            *phase = after.phase;
            answer_of(Ok(()), Microcycles::NONE, Steps::NONE)
        }
        Err(refusal) => Answer::from(refusal),
    }
}
