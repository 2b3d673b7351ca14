ghost use Rattle.std.specs.Prelude.{◌≡◌};
ghost use Rattle.dsm_gen.specs.Generated.{odd, distance, numbers_of as numbers_for};

use rand_core::SeedableRng;
use rand_core::utils::NextWord;
use rand_xoshiro::SplitMix64;

/// The numbers in which two generated programs differ.
#[derive(Clone, Copy, Debug, PartialEq, Eq)]
pub struct Numbers {
    /// What the words are filled with are multiples of it.
    pub first: u64,
    /// The factor on the way up to the second half of the memory.
    pub up: u64,
    /// How many words on the other word is there.
    pub up_by: u64,
    /// The factor on the way down.
    pub down: u64,
    /// How many words on the other word is there.
    pub down_by: u64,
}

/// The numbers of a seed, one of each of the first five words of SplitMix64.
#[tactic(auto, unfolding(crate::specs::Generated::numbers_of, rand_core::specs::Steps::first_words))]
pub fn numbers_of(seed: u64) -> Numbers
    ensures { result ≡ numbers_for seed }
{
    let mut words = SplitMix64::from_seed(seed.to_le_bytes());
    let first = odd(words.next_word());
    let up = odd(words.next_word());
    let up_by = distance(words.next_word());
    let down = odd(words.next_word());
    let down_by = distance(words.next_word());
    Numbers {
        first,
        up,
        up_by,
        down,
        down_by,
    }
}

/// The word with its lowest bit set.
fn odd(word: u64) -> u64
    ensures { result ≡ odd word }
{
    word | 1
}

/// A number of 1 to 1,149.
fn distance(word: u64) -> u64
    ensures { result ≡ distance word }
{
    1 + word % 1149
}
