// One step: the interrupt step or the instruction at PC.
ghost use Rattle.std.specs.Prelude.{◌≡◌};
ghost use Rattle.macro_meaning.specs.Step.{operands, selected, performed, step};

use crate::instructions::{INTERRUPT_STEP, perform};
use blocks::memory::{apply, load};
use macro_meaning::{Effect, MacroMachine, Operands};
use status::psw::Psw;
use words::instruction::Instruction;
use words::registers::{SSP, update};

// The registers that the word names, and the rest that an instruction reads.
#[tactic(auto, using(words::proofs::FieldBounds::dest_lt, words::proofs::FieldBounds::srca_lt, words::proofs::FieldBounds::srcb_lt))]
fn operands(w: u32, m: MacroMachine) -> Operands
    ensures { result ≡ operands w m }
{
    let Instruction {
        dest,
        srca,
        srcb,
        imm,
        ..
    } = Instruction::from(w);
    let MacroMachine {
        registers,
        psw,
        pc,
        ivec,
    } = m;
    Operands {
        a: registers[srca as usize],
        b: registers[srcb as usize],
        d: registers[dest as usize],
        ssp: registers[SSP as usize],
        imm,
        dest,
        psw,
        pc,
        ivec,
    }
}

// The list's entry: the request and ie are looked at here and nowhere else.
#[tactic(auto, unfolding(macro_meaning::specs::Step::selected))]
fn selected(request: bool, psw: Psw, w: u32) -> u32
    ensures { result ≡ selected request psw w }
{
    if request & psw.ie {
        INTERRUPT_STEP
    } else {
        Instruction::from(w).opcode
    }
}

// The state after an effect, but for its store.
fn performed(e: Effect, m: MacroMachine) -> MacroMachine
    ensures { result ≡ performed e m }
{
    let Effect {
        sm,
        register,
        value,
        psw,
        pc,
        ..
    } = e;
    let registers = update(sm, register, m.registers, value);
    MacroMachine {
        registers,
        psw,
        pc,
        ivec: m.ivec,
    }
}

#[tactic(auto, unfolding(macro_meaning::specs::Step::step))]
pub fn step(memory: &mut [u32], m: MacroMachine, request: bool) -> MacroMachine
    ensures value { result ≡ (step memory.old m request).machine }
    ensures memory_after { memory.new ≡ (step memory.old m request).memory }
{
    let w = load(memory, m.pc);
    let key = selected(request, m.psw, w);
    let effect = perform(key, memory, operands(w, m));
    apply(memory, effect.store);
    performed(effect, m)
}
