// The microprogram unit: where the next microword stands.
ghost use Rattle.std.specs.Prelude.{◌≡◌};
ghost use Rattle.control_store.specs.Sequencer.{add_bt6, mpc_unit};

use crate::code;

// The address of fetch, where every instruction begins (pp. 124-126).
pub const FETCH: u32 = 0;

// A sum of 6 bits.
#[tactic(auto, unfolding(crate::specs::Sequencer::add_bt6))]
fn add_bt6(a: u32, n: u32) -> u32
    ensures { result ≡ add_bt6 a n }
{
    (a % 64 + n % 64) % 64
}

// In the source's order: the counter, the opcode, a microword's address and condition, the latched
// request, ie and sm.
#[tactic(auto, unfolding(crate::specs::Sequencer::mpc_unit))]
pub fn next_address(
    mpc: u32,
    opcode: u32,
    addr: u32,
    cond: u32,
    request: bool,
    ie: bool,
    sm: bool,
) -> u32
    ensures { result ≡ mpc_unit mpc opcode addr cond request ie sm }
{
    let stepped = add_bt6(mpc, 1);
    match cond {
        code::JMP => addr,
        code::JOP => add_bt6(opcode, 4),
        // choices and no guards: a guard is a branch more in each microcycle, and runs are slower with it
        code::JINT => if request & ie { addr } else { stepped },
        code::JSM => if sm { addr } else { stepped },
        _ => stepped,
    }
}
