// The four phases (from p. 110). Every function is total; the crate phase_meaning says what each
// answers.
ghost use Rattle.std.specs.Prelude.{◌≡◌};
ghost use Rattle.phase_meaning.specs.Phases.{phase_one, phase_two, phase_three, phase_four, next_mpc, phase_store};

use blocks::choice::choose;
use blocks::memory::Store;
use blocks::sources;
use control_store::microword::Microword;
use control_store::{sequencer, word_at};
use datapath::operation::operate;
use datapath::results::SystemRegisters;
use datapath::{operation, results};
use phase_meaning::PhaseMachine;
use status::psw::Psw;
use words::instruction::Instruction;
use words::registers::SSP;

// MIR is loaded and the request latched.
#[tactic(auto, unfolding(phase_meaning::specs::Phases::phase_one, phase_meaning::specs::Phases::interrupt, words::specs::Words::bit))]
pub fn one(program: &[u64], s: PhaseMachine, request: u8) -> PhaseMachine
    ensures { result ≡ phase_one program.now s request }
{
    PhaseMachine {
        mir: word_at(program, s.mpc),
        ireq: request % 2 == 1,
        phase: 1,
        ..s
    }
}

// The latches that feed the ALU are loaded, and the acknowledge latch.
#[tactic(auto, using(words::proofs::FieldBounds::dest_lt, words::proofs::FieldBounds::srca_lt, words::proofs::FieldBounds::srcb_lt), unfolding(phase_meaning::specs::Phases::phase_two))]
pub fn two(s: PhaseMachine) -> PhaseMachine
    ensures { result ≡ phase_two s }
{
    let word = Microword::from(s.mir);
    let Instruction {
        dest,
        srca,
        srcb,
        imm,
        ..
    } = Instruction::from(s.ir);
    let file_a = s.registers[srca as usize];
    let file_b = s.registers[srcb as usize];
    let file_d = s.registers[dest as usize];
    let ssp = s.registers[SSP as usize];
    let psw = u32::from(s.psw);
    PhaseMachine {
        alatch: sources::a(word.srca, file_a, file_d, ssp, psw, s.pc),
        blatch: sources::b(word.srcb, file_b, s.ivec, imm),
        iack: word.iack,
        phase: 2,
        ..s
    }
}

// MAR may be loaded from PC.
#[tactic(auto, unfolding(phase_meaning::specs::Phases::phase_three))]
pub fn three(s: PhaseMachine) -> PhaseMachine
    ensures { result ≡ phase_three s }
{
    let word = Microword::from(s.mir);
    let from_pc = word.pmux & word.mar;
    PhaseMachine {
        mar: choose(from_pc, s.pc, s.mar),
        phase: 3,
        ..s
    }
}

// Where phase four goes next, from the latched request and the old PSW.
#[tactic(auto, unfolding(phase_meaning::specs::Phases::next_mpc, datapath::specs::Results::new_mpc))]
pub fn next_address(s: PhaseMachine) -> u32
    ensures { result ≡ next_mpc s }
{
    let Microword { addr, cond, .. } = Microword::from(s.mir);
    let Psw { ie, sm, .. } = s.psw;
    let opcode = Instruction::from(s.ir).opcode;
    sequencer::next_address(s.mpc, opcode, addr, cond, s.ireq, ie, sm)
}

// What phase four stores.
#[tactic(auto, unfolding(phase_meaning::specs::Phases::phase_store))]
pub fn store(s: PhaseMachine) -> Option<Store>
    ensures { result ≡ phase_store s }
{
    results::store(Microword::from(s.mir), s.mar, s.mbr)
}

// The result goes to its target. Memory is read here and written by nobody: `store` says what is
// stored.
#[tactic(auto, unfolding(phase_meaning::specs::Phases::phase_four, datapath::specs::Operation::operated))]
pub fn four(memory: &[u32], s: PhaseMachine) -> PhaseMachine
    ensures { result ≡ phase_four memory.now s }
{
    let PhaseMachine {
        psw,
        pc,
        ir,
        mar,
        mbr,
        ..
    } = s;
    let old = SystemRegisters { pc, ir, mar, mbr };
    let word = Microword::from(s.mir);
    let dest = Instruction::from(ir).dest;
    let a = choose(word.amux, mbr, s.alatch);
    let out = operate(word.alu, word.shft, word.csrc, a, s.blatch, psw.c);
    let result = out.value;
    let next_psw = operation::psw(word, out, psw);
    let next = results::system(memory, word, dest, psw, result, old);
    PhaseMachine {
        registers: results::registers(word.trgt, psw.sm, dest, s.registers, result),
        psw: next_psw,
        pc: next.pc,
        ir: next.ir,
        mar: next.mar,
        mbr: next.mbr,
        mpc: next_address(s),
        phase: 0,
        ..s
    }
}
