// The loop of a run: one microcycle for each request byte, with the registers in one place.
ghost use Rattle.std.specs.Prelude.{◌≡◌, true, false, MatchOption};
ghost use Rattle.blocks.specs.Memory.{applied};
ghost use Rattle.micro_meaning.specs.Microcycle.{microcycle, micro_store, leaves};
ghost use Rattle.micro_meaning.specs.Performing.{machine, read_of, put};
ghost use Rattle.micro_meaning.specs.Run.{run_on};

use crate::microcycle;
use answers::{Microcycles, Refusal, Steps};
use blocks::memory::apply;
use control_store::sequencer::FETCH;
use control_store::word_at;
use micro_meaning::{Core, MicroMachine, Performed, Ran, Read};
use words::instruction::Instruction;
use words::registers::SSP;

// The registers that a microcycle may read.
#[tactic(auto, using(words::proofs::FieldBounds::dest_lt, words::proofs::FieldBounds::srca_lt, words::proofs::FieldBounds::srcb_lt))]
fn read(registers: &[u32; 32], ir: u32) -> Read
    ensures { result ≡ read_of registers.now ir }
{
    let Instruction {
        srca,
        srcb,
        dest,
        ..
    } = Instruction::from(ir);
    Read {
        srca: registers[srca as usize],
        srcb: registers[srcb as usize],
        dest: registers[dest as usize],
        ssp: registers[SSP as usize],
    }
}

// The one register that it may write; 0 is never written, nor is a number that names none.
fn put(registers: &mut [u32; 32], number: u32, value: u32)
    ensures { registers.new ≡ put registers.old number value }
{
    if 0 < number && number < 32 {
        registers[number as usize] = value;
    }
}

// One microcycle, on registers and memory where they stand; none where it would leave, and then nothing
// has changed. The loop is its only caller.
#[tactic(auto, unfolding(micro_meaning::specs::Microcycle::leaves, micro_meaning::specs::Microcycle::next_address, micro_meaning::specs::Performing::next_of, micro_meaning::specs::Performing::performed, micro_meaning::specs::Microcycle::micro_store), using(micro_meaning::proofs::SameMicrocycle::same_state))]
fn advance(
    program: &[u64],
    memory: &mut [u32],
    registers: &mut [u32; 32],
    core: Core,
    request: u8,
) -> Option<Core>
    ensures { let s = machine registers.old core in
        MatchOption result
        ((leaves program.now s request ≡ true) × (memory.new ≡ memory.old)
        × (registers.new ≡ registers.old))
        (λ next. (leaves program.now s request ≡ false)
        × (memory.new ≡ applied (micro_store program.now s) memory.old)
        × (machine registers.new next ≡ microcycle program.now memory.old s request)) }
{
    let word = word_at(program, core.mpc);
    let next = microcycle::next(word, core, request);
    if program.len() <= next as usize {
        return None;
    }
    let sources = read(registers, core.ir);
    let Performed {
        core,
        register,
        value,
        store,
    } = microcycle::perform(memory, word, core, sources, next);
    put(registers, register, value);
    apply(memory, store);
    Some(core)
}

// The loop. It keeps the registers in one place.
#[tactic(auto, using(micro_meaning::proofs::RunTurns::more, micro_meaning::proofs::RunTurns::stop, micro_meaning::proofs::RunTurns::over))]
pub fn run_on(
    program: &[u64],
    memory: &mut [u32],
    s: MicroMachine,
    requests: &[u8],
) -> Ran<MicroMachine>
    ensures value { result ≡ (run_on program.now memory.old s 0 0 requests.now).ran }
    ensures memory_after { memory.new ≡ (run_on program.now memory.old s 0 0 requests.now).memory }
{
    let mut registers = s.registers;
    let mut core = Core::from(s);
    let mut steps = Steps::NONE;
    for (at, request) in requests.iter().enumerate() {
        let Some(next) = advance(program, memory, &mut registers, core, *request) else {
            return Ran {
                end: Err(Refusal::NextAddress),
                microcycles: Microcycles { count: at as u64 },
                steps,
                state: core.with(registers),
            };
        };
        core = next;
        steps.count += (core.mpc == FETCH) as u64;
    }
    Ran {
        end: Ok(()),
        microcycles: Microcycles {
            count: requests.len() as u64,
        },
        steps,
        state: core.with(registers),
    }
}
