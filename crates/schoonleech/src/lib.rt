// The C calls under the names and with the contracts that include/schoonleech.h tells a C author.
// Nothing is decided here: each call is a function of a crate below. A board is copied out of its
// place, advanced by value, and stored back whole.
#![tactic(auto)]

ghost use Rattle.std.specs.Prelude.{◌≡◌, ◌%◌};
ghost use Rattle.control_store.specs.ControlStore.{word_at};
ghost use Rattle.published.specs.Listing.{published};
ghost use Rattle.image_meaning.specs.Reading.{memory_after};
ghost use Rattle.image_meaning.specs.Writing.{room_after};
ghost use Rattle.check_call.specs.Checks.{CheckAnswer};
ghost use Rattle.image_call.specs.Images.{avm_read, avm_write};
ghost use Rattle.calls.specs.Lending.{found};
ghost use Rattle.micro_call.specs.Runs.{avm_run};
ghost use Rattle.macro_call.specs.Steps.{avm_steps};
ghost use Rattle.phase_call.specs.Phase.{phase_found, avm_phase};
ghost use Rattle.board_meaning.specs.Board.{board_found, board_microcycle, board_instruction};

use calls::Answer;
use micro_meaning::MicroState;

#[unsafe(no_mangle)]
pub extern "C" fn avm_run(
    program: &[u64],
    memory: &mut [u32],
    registers: &mut [u32],
    state: &mut [u32; 7],
    requests: &[u8],
) -> Answer
    ensures { found result memory.new registers.new state.new
        ≡ avm_run program.now memory.old registers.old state.old
        requests.now }
{
    micro_call::run(program, memory, registers, state, requests)
}

#[unsafe(no_mangle)]
pub extern "C" fn avm_steps(
    memory: &mut [u32],
    registers: &mut [u32],
    state: &mut [u32; 7],
    requests: &[u8],
) -> Answer
    ensures { found result memory.new registers.new state.new
        ≡ avm_steps memory.old registers.old state.old requests.now }
{
    macro_call::steps(memory, registers, state, requests)
}

#[unsafe(no_mangle)]
pub extern "C" fn avm_phase(
    program: &[u64],
    memory: &mut [u32],
    registers: &mut [u32],
    state: &mut [u32; 7],
    latches: &mut [u32; 4],
    mir: &mut u64,
    phase: &mut u32,
    request: u8,
) -> Answer
    ensures { phase_found result memory.new registers.new state.new latches.new
        mir.new phase.new
        ≡ avm_phase program.now memory.old registers.old state.old
        latches.old mir.old phase.old request }
{
    phase_call::phase(
        program, memory, registers, state, latches, mir, phase, request,
    )
}

#[unsafe(no_mangle)]
pub extern "C" fn avm_check(program: &[u64]) -> Answer
    ensures { CheckAnswer program.now result }
{
    check_call::check(program)
}

#[unsafe(no_mangle)]
pub extern "C" fn avm_read(memory: &mut [u32], text: &[u8]) -> Answer
    ensures { (result ≡ avm_read memory.old text.now)
        × (memory.new ≡ memory_after memory.old text.now) }
{
    image_call::read(memory, text)
}

#[unsafe(no_mangle)]
pub extern "C" fn avm_write(memory: &[u32], room: &mut [u8]) -> Answer
    ensures { (result ≡ avm_write memory.now room.old)
        × (room.new ≡ room_after memory.now room.old) }
{
    image_call::write(memory, room)
}

// The published microprogram's word at an address modulo 64.
#[unsafe(no_mangle)]
pub extern "C" fn avm_published(address: u64) -> u64
    ensures { result ≡ word_at published (address % 64) }
{
    published::word(address)
}

// Advances the board by one microcycle.
#[unsafe(no_mangle)]
pub extern "C" fn avm_board_microcycle(
    board: &mut MicroState,
    program: &[u64],
    memory: &mut [u32],
    request: u8,
) -> Answer
    ensures { board_found result board.new memory.new
        ≡ board_microcycle board.old program.now memory.old request }
{
    let moved = board_call::microcycle(*board, program, memory, request);
    *board = moved.board;
    moved.answer
}

// Advances the board by one instruction step.
#[unsafe(no_mangle)]
pub extern "C" fn avm_board_instruction(
    board: &mut MicroState,
    memory: &mut [u32],
    request: u8,
) -> Answer
    ensures { board_found result board.new memory.new
        ≡ board_instruction board.old memory.old request }
{
    let stepped = board_call::instruction(*board, memory, request);
    *board = stepped.board;
    stepped.answer
}
