//! Sequence numbers of 32 bits that wrap, as FreeBSD's `smr_seq_t`.
//!
//! The clock's two *hands*, its write sequence and read sequence, are numbers of 64 bits that only rise. A reader publishes only the low
//! half of one. [`Seq`] is such a low half. It is compared round the circle of 2^32, as FreeBSD does it, and [`Seq::read`] restores the
//! whole number from its low half and a known number near it.
//!
//! ```
//! let seq = Seq::low(entered);                        // the low 32 bits
//! let before = seq.lt(Seq::low(goal));                // entered < goal, if they differ by less than 2^31
//! let whole = seq.read(write);                        // Some(entered), if entered <= write < entered + 2^31
//! ```
//!
//! # What is promised
//!
//! - `read` returns the only number up to `near`, and less than 2^31 below it, that has this low half; `None` exactly if there is none
//!   (`Seq::read`: `found`, `all`, `none`; `laws::reading_of_low`).
//! - `delta`, `lt`, `leq` and `least` agree with the whole numbers if these differ by less than 2^31 (`of_hands`; `laws::order_of_low`).
//!
//! No call allocates.
#![tactic(auto)]

ghost use Rattle.std.specs.Prelude.{◌≡◌, ◌-ℤ◌, ◌↔◌, ℕ, ◌<◌, ◌≤◌, pos, min, IsTrue, IfSome, IfNone};
ghost use Rattle.smr_seq.specs.Order.{delta, AreHandsOf, IsAtOrBefore, IsBefore, IsDelta};
ghost use Rattle.smr_seq.specs.Reading.{low, IsReading, reading};

pub mod laws;

/// Half of the circle of 2^32 sequences.
///
/// What the four laws of `laws` say of it:
///
/// 1. A hand less than this below a known hand is read back from its low half (`reading_of_low`). At
///    this distance it isn't.
/// 2. Two sequences that differ by less than this are ordered as their low halves are, and their difference
///    is that of their low halves (`order_of_low`).
/// 3. The difference of two sequences is from minus this to one less than this (`delta_is_congruent`).
/// 4. At exactly this distance each of two sequences is before the other (`both_before_at_half`).
const HALF_CIRCLE: u32 = 1 << 31;

/// The low half of a hand of the clock, as FreeBSD's `smr_seq_t`.
///
/// A sequence has no place in an order of all sequences, so it has neither `Ord` nor `<`: `lt` and
/// `leq` go round the circle.
#[derive(Clone, Copy, Debug, PartialEq, Eq, Hash)]
pub struct Seq {
    pub raw: u32,
}

impl Seq {
    /// The low half of `hand`.
    pub fn low(hand: u64) -> Self
        ensures { result.raw ≡ low hand }
    {
        Seq {
            raw: (hand % (1 << 32)) as u32,
        }
    }

    /// The wrapping difference `self - other` as a signed number, FreeBSD's `SMR_SEQ_DELTA`.
    pub fn delta(self, other: Self) -> i32
        ensures congruent { IsDelta self.raw other.raw result }
        ensures value { result ≡ delta self.raw other.raw }
        ensures of_hands { (x y : ℕ) → AreHandsOf self.raw other.raw x y → result ≡ pos x -ℤ pos y }
    {
        self.raw.wrapping_sub(other.raw).cast_signed()
    }

    /// Whether `self` is before `other`: the difference is below 0, FreeBSD's `SMR_SEQ_LT`.
    pub fn lt(self, other: Self) -> bool
        ensures before { IsTrue result ↔ IsBefore self.raw other.raw }
        ensures of_hands { (x y : ℕ) → AreHandsOf self.raw other.raw x y → (IsTrue result ↔ (x < y)) }
    {
        self.delta(other) < 0
    }

    /// Whether `self` is `other` or before it: the difference is 0 or below, FreeBSD's `SMR_SEQ_LEQ`.
    pub fn leq(self, other: Self) -> bool
        ensures at_or_before { IsTrue result ↔ IsAtOrBefore self.raw other.raw }
        ensures of_hands { (x y : ℕ) → AreHandsOf self.raw other.raw x y → (IsTrue result ↔ (x ≤ y)) }
    {
        self.delta(other) <= 0
    }

    /// `other` where it is before `self`, else `self`.
    pub fn least(self, other: Self) -> Self
        ensures other_before { IsBefore other.raw self.raw → result ≡ other }
        ensures else_own { ¬ IsBefore other.raw self.raw → result ≡ self }
        ensures of_hands { (x y : ℕ) → AreHandsOf self.raw other.raw x y → result.raw ≡ low (min x y) }
    {
        if other.lt(self) { other } else { self }
    }

    /// The reading of `self` near `near`: the number up to `near`, less than 2^31 below it, whose low
    /// half is `self`. None exactly where there is none. The rule is this library's own.
    #[tactic(auto, unfolding(crate::specs::Reading::reading))]
    pub fn read(self, near: u64) -> Option<u64>
        ensures value { result ≡ reading self.raw near }

        // None stands exactly where there is no reading.
        ensures found { IfSome result (λ x. IsReading self.raw near x) }
        ensures all { (x : ℕ) → IsReading self.raw near x → result ≡ Some x }
        ensures none { IfNone result ((x : ℕ) → ¬ IsReading self.raw near x) }
    {
        let back = Self::low(near).raw.wrapping_sub(self.raw);
        if back < HALF_CIRCLE {
            near.checked_sub(u64::from(back))
        } else {
            None
        }
    }
}
