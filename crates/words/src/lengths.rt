// Which lengths a lent memory may have.
ghost use Rattle.std.specs.Prelude.{◌≡◌};
ghost use Rattle.words.specs.Lengths.{legal_length};

pub const FEWEST_WORDS: usize = 16;

pub const MOST_WORDS: usize = 16_384;

#[tactic(auto, unfolding(crate::specs::Lengths::legal_length))]
pub fn legal(words: usize) -> bool
    ensures { result ≡ legal_length words }
{
    // one bit set: the form in which the definition has a power of two
    let single = words.count_ones() == 1;
    single & ((FEWEST_WORDS <= words) & (words <= MOST_WORDS))
}
