// Twelve instruction steps from a small program, an interrupt among them, with the state after each;
// then lengths of memory that a run takes or refuses. A line has PC, PSW, the registers 1, 8 to 12
// and 20, and the memory words 12 to 14, all in decimal.
#![tactic(auto)]

use answers::Numbered;
use macro_level::opcode;
use macro_level::run::run;
use macro_meaning::MacroState;
use std::io;

fn main(rt: HostRuntime) -> io::Result<()> {
    steps(&rt)?;
    lengths(&rt)
}

// An instruction word: opcode, destination, source A and the immediate. No From for Instruction, since no
// call packs a word: only this program does.
fn instruction(opcode: u32, dest: u32, srca: u32, imm: u32) -> u32 {
    opcode % 64 * 0x400_0000 + dest % 32 * 0x20_0000 + srca % 32 * 0x1_0000 + imm % 0x1_0000
}

// Each word by its address, which the jumps name.
fn program() -> [u32; 16] {
    let mut memory = [0u32; 16];
    memory[0] = instruction(opcode::ADDI, 8, 0, 7); // ADDI R8, R0, 7
    memory[1] = instruction(opcode::SUBI, 9, 8, 7); // SUBI R9, R8, 7
    memory[2] = instruction(opcode::JMP, 6, 0, 4); // JMP if z to R0 + 4
    memory[4] = instruction(opcode::STI, 8, 0, 14); // STI R8 to R0 + 14
    memory[5] = instruction(opcode::LDI, 10, 0, 14); // LDI R10 from R0 + 14
    memory[6] = instruction(opcode::CALL, 20, 0, 9); // CALL R0 + 9, stack R20
    memory[7] = instruction(opcode::BNOT, 12, 8, 0); // BNOT R12, R8
    memory[8] = instruction(opcode::PPSW, 11, 0, 0); // PPSW R11
    memory[9] = instruction(opcode::RTN, 20, 0, 0); // RTN, stack R20
    memory[10] = instruction(opcode::GPSW, 11, 0, 0); // GPSW R11
    memory[11] = instruction(opcode::RTI, 0, 0, 0); // RTI
    memory
}

// In user mode with interrupts on; the supervisor's stack at 13, another at 12.
fn start() -> MacroState {
    let mut registers = [0u32; 32];
    registers[1] = 13;
    registers[20] = 12;
    MacroState {
        registers,
        psw: 16,
        pc: 0,
        ivec: 0x10a,
    }
}

// Each step with its request. The second request finds ie clear.
fn steps(rt: &impl Print) -> io::Result<()> {
    let mut memory = program();
    let mut state = start();
    let requests = [
        ("ADDI", 0u8),
        ("SUBI", 0),
        ("JMP", 0),
        ("STI", 0),
        ("LDI", 0),
        ("CALL", 0),
        ("RTN", 0),
        ("interrupt step", 1),
        ("GPSW", 1),
        ("RTI", 0),
        ("BNOT", 0),
        ("PPSW", 0),
    ];
    for (name, request) in requests {
        match run(&mut memory, state, &[request]) {
            Ok(ran) => state = ran.state,
            Err(refusal) => println!(rt; "{name}: {refusal:?}")?,
        }
        show(rt, name, &memory, state)?;
    }
    Ok(())
}

// A line with the state.
fn show(rt: &impl Print, name: &str, memory: &[u32; 16], s: MacroState) -> io::Result<()> {
    let MacroState {
        registers,
        psw,
        pc,
        ..
    } = s;
    print!(rt; "{name:14} pc {pc} psw {psw}")?;
    for n in [1, 8, 9, 10, 11, 12, 20] {
        print!(rt; " r{n} {}", registers[n])?;
    }
    for place in 12..15 {
        print!(rt; " m{place} {}", memory[place])?;
    }
    println!(rt)
}

// A run of no steps over a memory of so many words.
fn lengths(rt: &impl Print) -> io::Result<()> {
    let mut memory = [0u32; 16384];
    for words in [8, 16, 24, 16384] {
        let number = match run(&mut memory[..words], start(), &[]) {
            Ok(_) => 0,
            Err(refusal) => Numbered::from(refusal).number,
        };
        println!(rt; "{words} words: number {number}")?;
    }
    Ok(())
}
