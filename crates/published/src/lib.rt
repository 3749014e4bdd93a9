// The published microprogram: the table of its 64 microwords. specs/ has it by fields.
#![tactic(auto)]

ghost use Rattle.std.specs.Prelude.{◌≡◌, ◌%◌};
ghost use Rattle.control_store.specs.ControlStore.{word_at};
ghost use Rattle.published.specs.Listing.{published};

const PUBLISHED: [u64; 64] = [
    0x75_6d80_04f1, // 0 FETCH
    0xf4_2cc0_0000, // 1 ISSUE
    0x64_2d00_0080, // 2 DECODE
    0x74_2d80_0040, // 3 NOOP_u1
    0x60_0540_0040, // 4 JMP_u1
    0x75_0d80_0064, // 5 CALL_u1
    0x75_15a4_0069, // 6 INT_u1
    0x6b_1440_006b, // 7 RTI_u1
    0x74_1c00_0040, // 8 GPSW_u1
    0x74_0c80_0040, // 9 PPSW_u1
    0x61_0180_006d, // 10 LD_u1
    0x61_0180_006f, // 11 ST_u1
    0x14_0402_0040, // 12 LSL_u1
    0x34_0402_0040, // 13 LSR_u1
    0x54_0402_0040, // 14 ASR_u1
    0x6b_0c00_0067, // 15 RTN_u1
    0x74_2d80_0040, // 16 NOOP_u1
    0x74_2d80_0040, // 17 NOOP_u1
    0x61_0580_006d, // 18 LDI_u1
    0x61_0580_006f, // 19 STI_u1
    0x60_0003_e040, // 20 ADD_u1
    0x62_0003_e040, // 21 ADDC_u1
    0x66_0003_e040, // 22 SUB_u1
    0x68_0003_e040, // 23 SUBC_u1
    0x6c_0000_c040, // 24 BAND_u1
    0x70_0000_c040, // 25 BOR_u1
    0x6e_0000_c040, // 26 BXOR_u1
    0x72_0400_c040, // 27 BNOT_u1
    0x60_0403_e040, // 28 ADDI_u1
    0x62_0403_e040, // 29 ADDCI_u1
    0x66_0403_e040, // 30 SUBI_u1
    0x68_0403_e040, // 31 SUBCI_u1
    0x6c_0400_c040, // 32 BANDI_u1
    0x70_0400_c040, // 33 BORI_u1
    0x6e_0400_c040, // 34 BXORI_u1
    0x74_2d80_0040, // 35 NOOP_u1
    0x74_ad80_0000, // 36 CALL_u2
    0x60_0500_0200, // 37 CALL_u3
    0x64_0c00_0040, // 38 CALL_u4
    0x74_2d80_0400, // 39 RTN_u2
    0xf4_2d00_0040, // 40 RTN_u3
    0x74_ad80_0000, // 41 INT_u2
    0x6c_2500_0274, // 42 INT_u3
    0x74_2d80_0400, // 43 RTI_u2
    0xf4_2d18_0040, // 44 RTI_u3
    0x74_2d80_0400, // 45 LD_u2
    0xf4_2c00_0040, // 46 LD_u3
    0x74_8d80_0000, // 47 ST_u2
    0x74_2d80_0240, // 48 ST_u3
    0x75_15a4_1000, // 49 EINT_u1
    0x74_ad80_0000, // 50 EINT_u2
    0x6c_2300_0200, // 51 EINT_u3
    0x64_1440_0040, // 52 EINT_u4
    0x74_2d80_0040, // 53 NOOP_u1
    0x74_2d80_0040, // 54 NOOP_u1
    0x74_2d80_0040, // 55 NOOP_u1
    0x74_2d80_0040, // 56 NOOP_u1
    0x74_2d80_0040, // 57 NOOP_u1
    0x74_2d80_0040, // 58 NOOP_u1
    0x74_2d80_0040, // 59 NOOP_u1
    0x74_2d80_0040, // 60 NOOP_u1
    0x74_2d80_0040, // 61 NOOP_u1
    0x74_2d80_0040, // 62 NOOP_u1
    0x74_2d80_0040, // 63 NOOP_u1
];

// The word at an address modulo 64.
#[tactic(auto, unfolding(control_store::specs::ControlStore::word_at, crate::specs::Listing::published, crate::specs::Listing::listing, crate::specs::Assembler::packed))]
pub fn word(address: u64) -> u64
    ensures { result ≡ word_at published (address % 64) }
{
    PUBLISHED[(address % 64) as usize]
}
