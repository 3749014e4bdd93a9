// The walks of a microprogram: what the checker knows on its way. specs/ says what is meant, proofs/ that
// what is found is that, and check_walks finds it.
#![tactic(auto)]

ghost use Rattle.std.specs.Prelude.{◌≡◌, ◌<◌, ◌^◌};
ghost use Rattle.words.specs.Words.{bit};
ghost use Rattle.check_meaning.specs.Survey.{alone, union, has, is_empty, without_fetch, lowest, length_of, end};

use answers::Microcycles;
use control_store::MOST_MICROWORDS;

// A set of addresses, which have six bits: bit `a` is set where `a` is in it.
#[derive(Clone, Copy)]
pub struct AddressSet {
    pub bits: u64,
}

// Whether a bit of a number is set; from 64 on none is. It stands apart from `contains`, since the width
// of a number is known of a parameter and not of a struct's field.
#[tactic(auto, using(crate::proofs::Sets::beyond), unfolding(words::specs::Words::bit))]
fn bit(bits: u64, place: usize) -> bool
    ensures { result ≡ bit bits place }
{
    place < MOST_MICROWORDS && (bits >> place) % 2 == 1
}

// How many bits a number has, up to its highest that is set; it stands apart for the same reason.
#[tactic(auto, using(crate::proofs::Sets::has_its_length))]
fn length(bits: u64) -> usize
    ensures value { result ≡ length_of bits }
    ensures long_enough { bits < 2 ^ result }
{
    MOST_MICROWORDS - bits.leading_zeros() as usize
}

impl AddressSet {
    pub const NONE: AddressSet = AddressSet { bits: 0 };

    // Of an address the low six bits are read.
    #[tactic(auto, unfolding(crate::specs::Survey::alone))]
    pub fn only(address: u32) -> AddressSet
        ensures { result ≡ alone address }
    {
        AddressSet {
            bits: 1 << (address % MOST_MICROWORDS as u32),
        }
    }

    #[tactic(auto, unfolding(crate::specs::Survey::union))]
    pub fn with(self, other: AddressSet) -> AddressSet
        ensures { result ≡ union self other }
    {
        AddressSet {
            bits: self.bits | other.bits,
        }
    }

    // Fetch is address 0.
    #[tactic(auto, unfolding(crate::specs::Survey::without_fetch))]
    pub fn without_fetch(self) -> AddressSet
        ensures { result ≡ without_fetch self }
    {
        AddressSet {
            bits: self.bits / 2 * 2,
        }
    }

    pub fn contains(self, address: usize) -> bool
        ensures { result ≡ has self address }
    {
        bit(self.bits, address)
    }

    pub fn is_empty(self) -> bool
        ensures { result ≡ is_empty self }
    {
        self.bits == 0
    }

    pub fn lowest(self) -> Option<usize>
        ensures { result ≡ lowest self }
    {
        if self.is_empty() {
            return None;
        }
        Some(self.bits.trailing_zeros() as usize)
    }

    // One above the highest address of the set; 0 where it has none.
    pub fn end(self) -> usize
        ensures value { result ≡ end self }
        ensures above_all { self.bits < 2 ^ result }
    {
        length(self.bits)
    }
}

// What is known after some microcycles of all walks: the words on which walks now stand, those on
// which they stood before, and the longest walk that is back.
#[derive(Clone, Copy)]
pub struct Survey {
    pub standing: AddressSet,
    pub seen: AddressSet,
    pub longest: Microcycles,
}
