ghost use Rattle.std.specs.Prelude.{◌≡◌, ℕ, ◌+◌, ◌*◌, ◌/◌, ◌%◌, ◌^◌, ◌<◌, ◌≤◌, true, false, length, slice_index_or, slice_set, replicate, count_by, sum_by, count_ones, IfSome, IfNone};
ghost use Rattle.slab_bits.specs.Members.{HasNoneFrom, IsLeastFrom, IsGreatest};

use std::marker::Model;

/// How many numbers there are.
const NUMBERS: u32 = 1024;

/// The numbers of one word.
const WORD: u32 = 64;

/// The words of a set.
const WORDS: usize = 16;

/// A set of numbers below 1,024, in sixteen words and one more that says which of them aren't 0. So the least and the
/// greatest member are found without looking at each word.
///
/// Contracts see it as a list of 1,024 truth values, which says of each number whether it is a member. No call takes
/// memory.
#[derive(Debug, Drop)]
pub struct Wide {
    words: [u64; WORDS],
    summary: u64,
}

impl Model for Wide {
    ghost use Rattle.std.specs.Prelude.{List, Bool};
    ghost use Rattle.slab_bits.specs.Words.{places_of, AreSummed};

    ghost Value = { List Bool };

    ghost view = { λ w. places_of w.words };

    ghost invariant = { λ w. AreSummed w.summary w.words };
}

impl Wide {
    /// The set with no member.
    pub fn empty() -> Wide
        ensures { result ≡ replicate 1024 false }
    {
        Wide {
            words: [0; WORDS],
            summary: 0,
        }
    }

    /// The least member. None exactly where there is none.
    pub fn first(&self) -> Option<u32>
        ensures least { IfSome result (IsLeastFrom self.now 0) }
        ensures none { IfNone result (HasNoneFrom self.now 0) }
    {
        if self.summary == 0 {
            return None;
        }
        let index = self.summary.trailing_zeros();
        Some(index * WORD + self.words[index as usize].trailing_zeros())
    }

    /// The greatest member. None exactly where there is none.
    pub fn last(&self) -> Option<u32>
        ensures greatest { IfSome result (IsGreatest self.now) }
        ensures none { IfNone result (HasNoneFrom self.now 0) }
    {
        if self.summary == 0 {
            return None;
        }
        let index = WORD - 1 - self.summary.leading_zeros();
        Some(index * WORD + (WORD - 1 - self.words[index as usize].leading_zeros()))
    }

    /// Whether this number is a member. No number at or above 1,024 is one.
    pub fn has(&self, no: u32) -> bool
        ensures { result ≡ slice_index_or self.now no false }
    {
        no < NUMBERS && self.words[(no / WORD) as usize] >> (no % WORD) & 1 == 1
    }

    /// Makes this number, which is below 1,024, a member.
    pub fn set(&mut self, no: u32)
        requires { no < 1024 }
        ensures { self.new ≡ slice_set self.old no true }
    {
        self.words[(no / WORD) as usize] |= 1 << (no % WORD);
        self.summary |= 1 << (no / WORD);
    }

    /// Makes this number, which is below 1,024, no member.
    pub fn clear(&mut self, no: u32)
        requires { no < 1024 }
        ensures { self.new ≡ slice_set self.old no false }
    {
        let word = self.words[(no / WORD) as usize] & !(1 << (no % WORD));
        self.words[(no / WORD) as usize] = word;
        if word == 0 {
            self.summary &= !(1 << (no / WORD));
        }
    }

    /// How many members there are.
    pub fn count(&self) -> u32
        ensures count { result ≡ count_by (λ member. member) self.now }
        ensures numbers { length self.now ≡ 1024 }
    {
        let mut count = 0;
        for word in &self.words {
            count += word.count_ones();
        }
        count
    }
}
