// Where the result goes: the registers, the system registers and memory after a microcycle.
ghost use Rattle.std.specs.Prelude.{◌≡◌};
ghost use Rattle.datapath.specs.Results.{target_register, written_register};
ghost use Rattle.datapath.specs.Results.{new_reg, new_pc, new_mar, new_mbr, new_system, new_store};

use blocks::choice::choose;
use blocks::memory::Store;
use control_store::code;
use control_store::microword::Microword;
use status::psw::Psw;
use words::registers::{SSP, is_supervisor};

// The register that a target names. Where it names none that is register 0, which the machine itself never
// writes: the number is a register's all the same, and an Option would be a second way to say it.
#[tactic(auto, unfolding(crate::specs::Results::target_register))]
fn target_register(trgt: u32, dest: u32) -> u32
    ensures { result ≡ target_register trgt dest }
{
    match trgt {
        code::TO_REG_FILE => dest,
        code::TO_SSP => SSP,
        _ => 0,
    }
}

// The register that a result is written to, by the old sm; register 0, likewise, where to none.
#[tactic(auto, unfolding(crate::specs::Results::written_register))]
pub fn written_register(trgt: u32, sm: bool, dest: u32) -> u32
    ensures { result ≡ written_register trgt sm dest }
{
    let number = target_register(trgt, dest);
    let guarded = is_supervisor(number) & !sm;
    if guarded { 0 } else { number }
}

// The register file, by the old sm. Here and below a target comes with the destination field that it may
// name: two numbers of a microword and of an instruction, for which a struct would be made at each call.
#[tactic(auto, using(crate::proofs::Targets::by_the_rule))]
pub fn registers(trgt: u32, sm: bool, dest: u32, registers: [u32; 32], res: u32) -> [u32; 32]
    ensures { result ≡ new_reg trgt sm dest registers res }
{
    words::registers::update(sm, target_register(trgt, dest), registers, res)
}

// The system registers that a result can go to.
#[derive(Clone, Copy)]
pub struct SystemRegisters {
    pub pc: u32,
    pub ir: u32,
    pub mar: u32,
    pub mbr: u32,
}

// PC, always or if the jump decision holds, by the old flags. Two choices and no match with a guard, which
// is a branch more in each microcycle: runs are slower with it.
#[tactic(auto, unfolding(crate::specs::Results::new_pc))]
fn pc(trgt: u32, dest: u32, psw: Psw, res: u32, pc: u32) -> u32
    ensures { result ≡ new_pc trgt dest psw res pc }
{
    if trgt == code::TO_PCJ {
        return choose(status::jump::decide(dest, psw), res, pc);
    }
    choose(trgt == code::TO_PC, res, pc)
}

// MAR: a result, where it doesn't come from PC. It returns early: with one test for both bits the compiler
// keeps IR and MAR in a vector register, and runs are slower.
#[tactic(auto, unfolding(crate::specs::Results::new_mar))]
fn mar(word: Microword, res: u32, mar: u32) -> u32
    ensures { result ≡ new_mar word res mar }
{
    if word.pmux {
        return mar;
    }
    choose(word.mar, res, mar)
}

// MBR: a word read goes before a result.
#[tactic(auto, using(crate::proofs::Targets::no_read, crate::proofs::Targets::word_read))]
fn mbr(memory: &[u32], word: Microword, mar: u32, res: u32, mbr: u32) -> u32
    ensures { result ≡ new_mbr memory.now word mar res mbr }
{
    if word.rd {
        return blocks::memory::load(memory, mar);
    }
    choose(word.mbr, res, mbr)
}

// What goes to memory: the old MBR at MAR.
#[tactic(auto, unfolding(crate::specs::Results::new_store))]
pub fn store(word: Microword, mar: u32, mbr: u32) -> Option<Store>
    ensures { result ≡ new_store word mar mbr }
{
    word.wr.then_some(Store {
        address: mar,
        word: mbr,
    })
}

// The system registers after phase four.
pub fn system(
    memory: &[u32],
    word: Microword,
    dest: u32,
    psw: Psw,
    res: u32,
    old: SystemRegisters,
) -> SystemRegisters
    ensures { result ≡ new_system memory.now word dest psw res old }
{
    let trgt = word.trgt;
    let SystemRegisters {
        pc: old_pc,
        ir: old_ir,
        mar: old_mar,
        mbr: old_mbr,
    } = old;
    SystemRegisters {
        pc: pc(trgt, dest, psw, res, old_pc),
        ir: choose(trgt == code::TO_IR, res, old_ir),
        mar: mar(word, res, old_mar),
        mbr: mbr(memory, word, old_mar, res, old_mbr),
    }
}
