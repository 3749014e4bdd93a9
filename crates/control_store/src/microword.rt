// A microword, taken apart.
ghost use Rattle.std.specs.Prelude.{◌≡◌};
ghost use Rattle.control_store.specs.Microword.{fields};
ghost use Rattle.control_store.specs.Codes.{legal_microword};

use crate::code;

// The 24 fields of table 5.12 (p. 119), in its order and by its names.
#[derive(Clone, Copy)]
pub struct Microword {
    pub amux: bool,
    pub shft: u32,
    pub alu: u32,
    pub mar: bool,
    pub mbr: bool,
    pub pmux: bool,
    pub srca: u32,
    pub srcb: u32,
    pub trgt: u32,
    pub ssm: bool,
    pub csm: bool,
    pub sie: bool,
    pub cie: bool,
    pub ldc: bool,
    pub ldv: bool,
    pub ldn: bool,
    pub ldz: bool,
    pub csrc: bool,
    pub iack: bool,
    pub ftch: bool,
    pub rd: bool,
    pub wr: bool,
    pub cond: u32,
    pub addr: u32,
}

impl From<u64> for Microword {
    ghost from_gives = { λ w word. word ≡ fields w };

    #[tactic(auto, unfolding(words::specs::Words::bit, words::specs::Words::field))]
    fn from(w: u64) -> Microword {
        Microword {
            amux: w / 0x80_0000_0000 % 2 == 1,
            shft: (w / 0x20_0000_0000 % 4) as u32,
            alu: (w / 0x2_0000_0000 % 16) as u32,
            mar: w / 0x1_0000_0000 % 2 == 1,
            mbr: w / 0x8000_0000 % 2 == 1,
            pmux: w / 0x4000_0000 % 2 == 1,
            srca: (w / 0x800_0000 % 8) as u32,
            srcb: (w / 0x200_0000 % 4) as u32,
            trgt: (w / 0x40_0000 % 8) as u32,
            ssm: w / 0x20_0000 % 2 == 1,
            csm: w / 0x10_0000 % 2 == 1,
            sie: w / 0x8_0000 % 2 == 1,
            cie: w / 0x4_0000 % 2 == 1,
            ldc: w / 0x2_0000 % 2 == 1,
            ldv: w / 0x1_0000 % 2 == 1,
            ldn: w / 0x8000 % 2 == 1,
            ldz: w / 0x4000 % 2 == 1,
            csrc: w / 0x2000 % 2 == 1,
            iack: w / 0x1000 % 2 == 1,
            ftch: w / 0x800 % 2 == 1,
            rd: w / 0x400 % 2 == 1,
            wr: w / 0x200 % 2 == 1,
            cond: (w / 0x40 % 8) as u32,
            addr: (w % 0x40) as u32,
        }
    }
}

// No bit above the 40 used, and no field with a code that tables 5.13 to 5.18 leave out.
#[tactic(auto, unfolding(crate::specs::Codes::legal_microword))]
pub fn legal(w: u64) -> bool
    ensures { result ≡ legal_microword w }
{
    let Microword {
        alu,
        srca,
        srcb,
        trgt,
        cond,
        ..
    } = Microword::from(w);
    (w < 0x100_0000_0000)
        & (alu <= code::NOP)
        & (srca <= code::FROM_PC)
        & (srcb <= code::FROM_IR)
        & (trgt <= code::TO_NOREG)
        & (cond <= code::JSM)
}
