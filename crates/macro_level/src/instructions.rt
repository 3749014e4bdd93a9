// What each instruction and the interrupt step do, from the words that they read.
ghost use Rattle.std.specs.Prelude.{◌≡◌};
ghost use Rattle.words.specs.Shifter.{shifter};
ghost use Rattle.alu.specs.Alu.{alu};
ghost use Rattle.macro_meaning.specs.Effects.{add, dec, goes, put, mode};
ghost use Rattle.macro_meaning.specs.Instructions.{jmp, call, interrupted, rti, rtn, gpsw, ppsw, ld, st, shift, arithmetic, logic, noop, computation, effect};

use crate::opcode;
use alu::{AluOutput, Flags, code};
use blocks::memory::{Store, load};
use macro_meaning::{Effect, Operands};
use status::jump::decide;
use status::psw::Psw;
use words::registers::SSP;
use words::shifter;

// The interrupt step's entry in the list.
pub const INTERRUPT_STEP: u32 = 32;

// The sum of two words.
#[tactic(auto, unfolding(alu::specs::Alu::sum, words::specs::Words::wordn))]
fn add(a: u32, b: u32) -> u32
    ensures { result ≡ add a b }
{
    a.wrapping_add(b)
}

#[tactic(auto, using(alu::proofs::Sums::difference_is))]
fn dec(a: u32) -> u32
    ensures { result ≡ dec a }
{
    a.wrapping_sub(1)
}

// No register is written and nothing is stored.
fn go(o: Operands, psw: Psw, pc: u32) -> Effect
    ensures { result ≡ goes o psw pc }
{
    Effect {
        sm: o.psw.sm,
        register: 0,
        value: 0,
        psw,
        pc,
        store: None,
    }
}

// R[d] gets the value, and PC goes on.
fn put(o: Operands, value: u32, psw: Psw) -> Effect
    ensures { result ≡ put o value psw }
{
    Effect {
        register: o.dest,
        value,
        ..go(o, psw, add(o.pc, 1))
    }
}

// The PSW with other sm and ie.
fn mode(psw: Psw, sm: bool, ie: bool) -> Psw
    ensures { result ≡ mode psw sm ie }
{
    Psw { sm, ie, ..psw }
}

#[tactic(auto, unfolding(macro_meaning::specs::Instructions::jmp))]
fn jmp(o: Operands) -> Effect
    ensures { result ≡ jmp o }
{
    let pc = if decide(o.dest, o.psw) {
        add(o.a, o.imm)
    } else {
        add(o.pc, 1)
    };
    go(o, o.psw, pc)
}

// The target and the stored word are read before R[d] moves.
#[tactic(auto, unfolding(macro_meaning::specs::Instructions::call))]
fn call(o: Operands) -> Effect
    ensures { result ≡ call o }
{
    Effect {
        pc: add(o.a, o.imm),
        store: Some(Store {
            address: o.d,
            word: add(o.pc, 1),
        }),
        ..put(o, add(o.d, 1), o.psw)
    }
}

// INT and the interrupt step: `back` is pushed on the supervisor's stack, whose pointer moves under
// the new PSW.
#[tactic(auto, unfolding(macro_meaning::specs::Instructions::interrupted))]
fn interrupted(o: Operands, pc: u32, back: u32) -> Effect
    ensures { result ≡ interrupted o pc back }
{
    let psw = mode(o.psw, true, false);
    Effect {
        sm: psw.sm,
        register: SSP,
        value: add(o.ssp, 1),
        store: Some(Store {
            address: o.ssp,
            word: back,
        }),
        ..go(o, psw, pc)
    }
}

// SSP moves under the old PSW.
#[tactic(auto, unfolding(macro_meaning::specs::Instructions::rti))]
fn rti(memory: &[u32], o: Operands) -> Effect
    ensures { result ≡ rti memory.now o }
{
    let ssp = dec(o.ssp);
    Effect {
        register: SSP,
        value: ssp,
        ..go(o, mode(o.psw, false, true), load(memory, ssp))
    }
}

#[tactic(auto, unfolding(macro_meaning::specs::Instructions::rtn))]
fn rtn(memory: &[u32], o: Operands) -> Effect
    ensures { result ≡ rtn memory.now o }
{
    let top = dec(o.d);
    Effect {
        pc: load(memory, top),
        ..put(o, top, o.psw)
    }
}

#[tactic(auto, unfolding(macro_meaning::specs::Instructions::gpsw))]
fn gpsw(o: Operands) -> Effect
    ensures { result ≡ gpsw o }
{
    put(o, u32::from(o.psw), o.psw)
}

// A whole PSW is taken in supervisor mode alone.
#[tactic(auto, unfolding(macro_meaning::specs::Instructions::ppsw))]
fn ppsw(o: Operands) -> Effect
    ensures { result ≡ ppsw o }
{
    let psw = if o.psw.sm { Psw::from(o.d) } else { o.psw };
    go(o, psw, add(o.pc, 1))
}

// LD and LDI.
#[tactic(auto, unfolding(macro_meaning::specs::Instructions::ld))]
fn ld(memory: &[u32], o: Operands, offset: u32) -> Effect
    ensures { result ≡ ld memory.now o offset }
{
    put(o, load(memory, add(o.a, offset)), o.psw)
}

// ST and STI.
#[tactic(auto, unfolding(macro_meaning::specs::Instructions::st))]
fn st(o: Operands, offset: u32) -> Effect
    ensures { result ≡ st o offset }
{
    Effect {
        store: Some(Store {
            address: add(o.a, offset),
            word: o.d,
        }),
        ..go(o, o.psw, add(o.pc, 1))
    }
}

// LSL, LSR and ASR, by the shifter's code.
#[tactic(auto, unfolding(macro_meaning::specs::Instructions::shift))]
fn shift(o: Operands, code: u32) -> Effect
    ensures { result ≡ shift o (shifter code o.a).value (shifter code o.a).carry }
{
    let shifted = shifter::shift(code, o.a);
    let psw = Psw {
        c: shifted.carry,
        ..o.psw
    };
    put(o, shifted.value, psw)
}

// ADD, ADDC, SUB and SUBC, by the ALU's code.
#[tactic(auto, unfolding(macro_meaning::specs::Instructions::arithmetic))]
fn arithmetic(o: Operands, code: u32, b: u32) -> Effect
    ensures { result ≡ arithmetic o (alu code o.a b o.psw.c) }
{
    let AluOutput { value, flags } = alu::compute(code, o.a, b, o.psw.c);
    let Flags { v, n, c, z } = flags;
    let psw = Psw {
        v,
        n,
        c,
        z,
        ..o.psw
    };
    put(o, value, psw)
}

// BAND, BOR, BXOR and BNOT, by the ALU's code.
#[tactic(auto, unfolding(macro_meaning::specs::Instructions::logic))]
fn logic(o: Operands, code: u32, b: u32) -> Effect
    ensures { result ≡ logic o (alu code o.a b o.psw.c) }
{
    let AluOutput { value, flags } = alu::compute(code, o.a, b, o.psw.c);
    let Flags { n, z, .. } = flags;
    put(o, value, Psw { n, z, ..o.psw })
}

#[tactic(auto, unfolding(macro_meaning::specs::Instructions::noop))]
fn noop(o: Operands) -> Effect
    ensures { result ≡ noop o }
{
    go(o, o.psw, add(o.pc, 1))
}

// Opcodes 16 to 30, and NOOP for every other.
#[tactic(auto, unfolding(alu::specs::Alu::alu, macro_meaning::specs::Instructions::computation))]
fn computation(key: u32, o: Operands) -> Effect
    ensures { result ≡ computation key o }
{
    let Operands { b, imm, .. } = o;
    match key {
        opcode::ADD => arithmetic(o, code::ADD, b),
        opcode::ADDC => arithmetic(o, code::ADD_WITH_CARRY, b),
        opcode::SUB => arithmetic(o, code::SUBTRACT, b),
        opcode::SUBC => arithmetic(o, code::SUBTRACT_WITH_CARRY, b),
        opcode::BAND => logic(o, code::AND, b),
        opcode::BOR => logic(o, code::OR, b),
        opcode::BXOR => logic(o, code::XOR, b),
        opcode::BNOT => logic(o, code::NOT, b),
        opcode::ADDI => arithmetic(o, code::ADD, imm),
        opcode::ADDCI => arithmetic(o, code::ADD_WITH_CARRY, imm),
        opcode::SUBI => arithmetic(o, code::SUBTRACT, imm),
        opcode::SUBCI => arithmetic(o, code::SUBTRACT_WITH_CARRY, imm),
        opcode::BANDI => logic(o, code::AND, imm),
        opcode::BORI => logic(o, code::OR, imm),
        opcode::BXORI => logic(o, code::XOR, imm),
        _ => noop(o),
    }
}

// By the entry of the list: 0 to 31 the opcodes, 32 the interrupt step. The entries are numbers because
// the list is the source's own (`macro_inst_list`, pp. 130-137), whose opcodes are read off a word.
#[tactic(auto, unfolding(words::specs::Shifter::shifter, macro_meaning::specs::Instructions::effect))]
pub fn perform(key: u32, memory: &[u32], o: Operands) -> Effect
    ensures { result ≡ effect key memory.now o }
{
    let Operands {
        b,
        imm,
        pc,
        ivec,
        ..
    } = o;
    match key {
        opcode::JMP => jmp(o),
        opcode::CALL => call(o),
        opcode::INT => interrupted(o, 255 & imm, add(pc, 1)),
        opcode::RTI => rti(memory, o),
        opcode::GPSW => gpsw(o),
        opcode::PPSW => ppsw(o),
        opcode::LD => ld(memory, o, b),
        opcode::ST => st(o, b),
        opcode::LSL => shift(o, shifter::LEFT),
        opcode::LSR => shift(o, shifter::RIGHT),
        opcode::ASR => shift(o, shifter::ARITHMETIC_RIGHT),
        opcode::RTN => rtn(memory, o),
        opcode::LDI => ld(memory, o, imm),
        opcode::STI => st(o, imm),
        INTERRUPT_STEP => interrupted(o, 255 & ivec, pc),
        _ => computation(key, o),
    }
}
