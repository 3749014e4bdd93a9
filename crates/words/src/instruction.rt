// An instruction word, taken apart.
ghost use Rattle.std.specs.Prelude.{◌≡◌};
ghost use Rattle.words.specs.Fields.{decoded};

#[derive(Clone, Copy)]
pub struct Instruction {
    pub opcode: u32,
    pub dest: u32,
    pub srca: u32,
    pub srcb: u32,
    pub imm: u32,
}

impl From<u32> for Instruction {
    ghost from_gives = { λ w instruction. instruction ≡ decoded w };

    #[tactic(auto, unfolding(crate::specs::Fields::dest, crate::specs::Words::field, crate::specs::Fields::imm, crate::specs::Fields::opcode, crate::specs::Fields::srca, crate::specs::Fields::srcb))]
    fn from(w: u32) -> Instruction {
        Instruction {
            opcode: w / 0x400_0000 % 32,
            dest: w / 0x20_0000 % 32,
            srca: w / 0x1_0000 % 32,
            srcb: w / 0x800 % 32,
            imm: w % 0x1_0000,
        }
    }
}
