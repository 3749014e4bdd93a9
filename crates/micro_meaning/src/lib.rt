// The micro level: its state, as a microcycle sees it and as a caller lends it, what a microcycle does
// and what a run answers. The functions here turn one form of the state into another and decide
// nothing: specs/ says what a microcycle and a run mean, proofs/ what follows from it, and micro_level
// does it.
#![tactic(auto)]

ghost use Rattle.std.specs.Prelude.{◌≡◌};
ghost use Rattle.micro_meaning.specs.Machine.{micro_unpacked, micro_packed};
ghost use Rattle.micro_meaning.specs.Performing.{core_of, machine};

use answers::{Microcycles, Refusal, Steps};
use blocks::memory::Store;
use status::psw::Psw;

// The state of the micro level: the phase level's without its latches, with the PSW as its six bits. It
// is MicroState with another PSW. One struct, generic in the PSW, can't stand for both: MicroState is
// avm_board of the C interface, and C has no generic type.
#[derive(Clone, Copy)]
pub struct MicroMachine {
    pub registers: [u32; 32],
    pub psw: Psw,
    pub pc: u32,
    pub ir: u32,
    pub mar: u32,
    pub mbr: u32,
    pub mpc: u32,
    pub ivec: u32,
}

// The state beside the registers, which a run keeps in one place while this moves by value. MicroMachine has
// these fields and no Core in it, since what is said of a state names them, in every theorem of the level.
#[derive(Clone, Copy)]
pub struct Core {
    pub psw: Psw,
    pub pc: u32,
    pub ir: u32,
    pub mar: u32,
    pub mbr: u32,
    pub mpc: u32,
    pub ivec: u32,
}

// The registers that a microcycle may read: those that the instruction names, and SSP.
#[derive(Clone, Copy)]
pub struct Read {
    pub srca: u32,
    pub srcb: u32,
    pub dest: u32,
    pub ssp: u32,
}

// What a microcycle does: the new state, the register that gets the value, and what is stored. Register
// 0 is never written, so a value for it goes nowhere: the machine's own way to write none.
#[derive(Clone, Copy)]
pub struct Performed {
    pub core: Core,
    pub register: u32,
    pub value: u32,
    pub store: Option<Store>,
}

// The state of the micro level, as a caller lends it. The PSW is a number.
#[repr(C)]
#[derive(Clone, Copy)]
pub struct MicroState {
    pub registers: [u32; 32],
    pub psw: u32,
    pub pc: u32,
    pub ir: u32,
    pub mar: u32,
    pub mbr: u32,
    pub mpc: u32,
    pub ivec: u32,
}

// How a run went: its end, the two clocks, and the state after the last completed microcycle, in either
// form. The end stands beside the rest, for a run that 8 cuts short keeps the microcycles that it did.
#[derive(Clone, Copy)]
pub struct Ran<S> {
    pub end: Result<(), Refusal>,
    pub microcycles: Microcycles,
    pub steps: Steps,
    pub state: S,
}

pub type MicroAnswer = Ran<MicroState>;

// The PSW's other bits are dropped.
impl From<MicroState> for MicroMachine {
    ghost from_gives = { λ s m. m ≡ micro_unpacked s };

    fn from(s: MicroState) -> MicroMachine {
        let MicroState {
            registers,
            psw,
            pc,
            ir,
            mar,
            mbr,
            mpc,
            ivec,
        } = s;
        MicroMachine {
            registers,
            psw: Psw::from(psw),
            pc,
            ir,
            mar,
            mbr,
            mpc,
            ivec,
        }
    }
}

impl From<MicroMachine> for MicroState {
    ghost from_gives = { λ m s. s ≡ micro_packed m };

    fn from(m: MicroMachine) -> MicroState {
        let MicroMachine {
            registers,
            psw,
            pc,
            ir,
            mar,
            mbr,
            mpc,
            ivec,
        } = m;
        MicroState {
            registers,
            psw: u32::from(psw),
            pc,
            ir,
            mar,
            mbr,
            mpc,
            ivec,
        }
    }
}

impl From<MicroMachine> for Core {
    ghost from_gives = { λ s core. core ≡ core_of s };

    fn from(s: MicroMachine) -> Core {
        Core {
            psw: s.psw,
            pc: s.pc,
            ir: s.ir,
            mar: s.mar,
            mbr: s.mbr,
            mpc: s.mpc,
            ivec: s.ivec,
        }
    }
}

impl Core {
    // Both put together again.
    pub fn with(self, registers: [u32; 32]) -> MicroMachine
        ensures { result ≡ machine registers self }
    {
        MicroMachine {
            registers,
            psw: self.psw,
            pc: self.pc,
            ir: self.ir,
            mar: self.mar,
            mbr: self.mbr,
            mpc: self.mpc,
            ivec: self.ivec,
        }
    }
}
