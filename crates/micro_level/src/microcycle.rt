// The microcycle, by value and without the registers: the four that it may read come in as words, and
// the one that it may write goes out as a number and a value. So no register moves but that one, and
// whoever runs microcycles keeps the file where it stands.
ghost use Rattle.std.specs.Prelude.{◌≡◌};
ghost use Rattle.micro_meaning.specs.Performing.{next_of, performed};

use blocks::choice::choose;
use blocks::sources;
use control_store::microword::Microword;
use control_store::sequencer;
use datapath::operation::operate;
use datapath::results::SystemRegisters;
use datapath::{operation, results};
use micro_meaning::{Core, Performed, Read};
use words::instruction::Instruction;

// Where a microword goes next, from the request and the PSW before it.
#[tactic(auto, unfolding(micro_meaning::specs::Performing::next_of, datapath::specs::Results::new_mpc, phase_meaning::specs::Phases::interrupt, words::specs::Words::bit))]
pub fn next(word: u64, core: Core, request: u8) -> u32
    ensures { result ≡ next_of word core request }
{
    let m = Microword::from(word);
    let interrupt = request % 2 == 1;
    sequencer::next_address(
        core.mpc,
        Instruction::from(core.ir).opcode,
        m.addr,
        m.cond,
        interrupt,
        core.psw.ie,
        core.psw.sm,
    )
}

// A microcycle under that microword, with its next address given.
#[tactic(auto, unfolding(micro_meaning::specs::Performing::performed, datapath::specs::Operation::operated))]
pub fn perform(memory: &[u32], word: u64, core: Core, read: Read, next: u32) -> Performed
    ensures { result ≡ performed memory.now word core read next }
{
    let m = Microword::from(word);
    let Instruction { dest, imm, .. } = Instruction::from(core.ir);
    let Core {
        psw,
        pc,
        ir,
        mar,
        mbr,
        ivec,
        ..
    } = core;
    let a = sources::a(m.srca, read.srca, read.dest, read.ssp, u32::from(psw), pc);
    let b = sources::b(m.srcb, read.srcb, ivec, imm);
    let mar = choose(m.pmux & m.mar, pc, mar);
    let input = choose(m.amux, mbr, a);
    let out = operate(m.alu, m.shft, m.csrc, input, b, psw.c);
    let old = SystemRegisters { pc, ir, mar, mbr };
    let system = results::system(memory, m, dest, psw, out.value, old);
    Performed {
        core: Core {
            psw: operation::psw(m, out, psw),
            pc: system.pc,
            ir: system.ir,
            mar: system.mar,
            mbr: system.mbr,
            mpc: next,
            ..core
        },
        register: results::written_register(m.trgt, psw.sm, dest),
        value: out.value,
        store: results::store(m, mar, mbr),
    }
}
