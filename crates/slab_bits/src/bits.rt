ghost use Rattle.std.specs.Prelude.{◌≡◌, ◌%◌, ◌^◌, ◌<◌, length, sum_by, count_ones, ℕ, ◌+◌, ◌-◌, ◌*◌, ◌/◌, ◌≤◌, true, false, slice_index_or, slice_set, replicate, count_by, min, All, IfSome, IfNone, ◌++◌};
ghost use Rattle.slab_bits.specs.Members.{HasNoneFrom, IsLeastFrom, IsEmpty};
ghost use Rattle.slab_bits.specs.Words.{places_of};

use std::marker::Model;
use std::simd::prelude::*;

/// The lanes of a vector.
const LANES: usize = 8;

/// How many bits of these words are set, modulo 2^64, which fewer than 2^58 words don't come to.
pub fn count_lanes(words: &[u64]) -> u64
    ensures wraps { result ≡ sum_by count_ones words.now % 2 ^ 64 }
    ensures plain { length words.now < 2 ^ 58 → result ≡ sum_by count_ones words.now }
{
    let (whole, rest) = words.as_chunks::<LANES>();
    let mut counts = u64x8::splat(0);
    for lanes in whole {
        counts += u64x8::from_array(*lanes).count_ones();
    }
    let mut count = counts.reduce_sum();
    for word in rest {
        count = count.wrapping_add(word.count_ones() as u64);
    }
    count
}

/// How many places there are.
const PLACES: u32 = 256;

/// The places of one word.
const WORD: u32 = 64;

/// The words of a set.
const WORDS: usize = 4;

/// A set of places below 256, in four words.
///
/// Contracts see it as a list of 256 truth values, which says of each place whether it is a member. No call takes
/// memory.
#[derive(Clone, Copy, Debug)]
pub struct Bits {
    words: [u64; WORDS],
}

impl Model for Bits {
    ghost use Rattle.std.specs.Prelude.{List, Bool};
    ghost use Rattle.slab_bits.specs.Words.{places_of, words_of, AreWords};
    ghost use Rattle.slab_bits.specs.Inverse.{inside_back};

    ghost Value = { List Bool };

    ghost view = { λ b. places_of b.words };

    ghost invariant = { λ b. AreWords b.words };

    ghost inverse = { λ places. record { words = words_of 4 places } };

    ghost inverse_ok = { λ b are i. record { words = inside_back b.words are i } };
}

impl Bits {
    /// The set with no member.
    pub fn empty() -> Bits
        ensures { IsEmpty result }
    {
        Bits { words: [0; WORDS] }
    }

    /// The set of the places below `n`, which is at most 256.
    pub fn first_n(n: u32) -> Bits
        requires { n ≤ 256 }
        ensures { result ≡ replicate n true ++ replicate (256 - n) false }
    {
        Bits {
            words: [
                word_of_first(n, 0),
                word_of_first(n, WORD),
                word_of_first(n, 2 * WORD),
                word_of_first(n, 3 * WORD),
            ],
        }
    }

    /// The least member. None exactly where there is none.
    pub fn first(&self) -> Option<u32>
        ensures least { IfSome result (IsLeastFrom self.now 0) }
        ensures none { IfNone result (HasNoneFrom self.now 0) }
    {
        first_in(&self.words, 0)
    }

    /// Whether this place is a member. No place at or above 256 is one.
    pub fn has(&self, place: u32) -> bool
        ensures { result ≡ slice_index_or self.now place false }
    {
        place < PLACES && self.words[(place / WORD) as usize] >> (place % WORD) & 1 == 1
    }

    /// Makes this place, which is below 256, a member.
    pub fn set(&mut self, place: u32)
        requires { place < 256 }
        ensures { self.new ≡ slice_set self.old place true }
    {
        self.words[(place / WORD) as usize] |= 1 << (place % WORD);
    }

    /// Makes this place, which is below 256, no member.
    pub fn clear(&mut self, place: u32)
        requires { place < 256 }
        ensures { self.new ≡ slice_set self.old place false }
    {
        self.words[(place / WORD) as usize] &= !(1 << (place % WORD));
    }

    /// How many members there are.
    pub fn count(&self) -> u32
        ensures count { result ≡ count_by (λ member. member) self.now }
        ensures places { length self.now ≡ 256 }
    {
        let mut count = 0;
        for word in &self.words {
            count += word.count_ones();
        }
        count
    }

    /// The least member at or above `from`. None exactly where there is none.
    pub fn next(&self, from: u32) -> Option<u32>
        ensures least { IfSome result (IsLeastFrom self.now from) }
        ensures none { IfNone result (HasNoneFrom self.now from) }
    {
        let words = &self.words;
        if from >= PLACES {
            return None;
        }
        let index = (from / WORD) as usize;
        let rest = words[index] & (u64::MAX << (from % WORD));
        if rest == 0 {
            first_in(words, index + 1)
        } else {
            Some(index as u32 * WORD + rest.trailing_zeros())
        }
    }
}

/// The least place that is set in the words from `start` on.
fn first_in(words: &[u64], start: usize) -> Option<u32>
    requires { length words.now ≤ 4 }
    ensures least { IfSome result (IsLeastFrom (places_of words.now) (64 * start)) }
    ensures none { IfNone result (HasNoneFrom (places_of words.now) (64 * start)) }
{
    for index in start..words.len() {
        let word = words[index];
        if word != 0 {
            return Some(index as u32 * WORD + word.trailing_zeros());
        }
    }
    None
}

/// The word whose least place is `start`, with the places below `n` set.
fn word_of_first(n: u32, start: u32) -> u64
    requires { n ≤ 256 }
    ensures { result ≡ 2 ^ (min 64 (n - start)) - 1 }
{
    match WORD.min(n.saturating_sub(start)) {
        0 => 0,
        set => u64::MAX >> (WORD - set),
    }
}
