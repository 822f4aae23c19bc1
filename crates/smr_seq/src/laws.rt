//! The laws of sequences, each for all numbers. A call here does nothing: its contract is the law.

ghost use Rattle.smr_seq.specs.Order.{BothBeforeAtHalf, DeltaIsCongruent, DeltaOfLow, OrderOfLow};
ghost use Rattle.smr_seq.specs.Reading.{LowReadsBack, ReadingOfLow};

/// Where x is at most l and less than 2^31 below it, the reading of x's low half near l is x, and it
/// is the only one.
pub fn reading_of_low()
    ensures relation { LowReadsBack }
    ensures function { ReadingOfLow }
{}

/// Where x and y differ by less than 2^31, their low halves are ordered as x and y are, and the
/// difference of their low halves is x - y.
pub fn order_of_low()
    ensures order { OrderOfLow }
    ensures difference { DeltaOfLow }
{}

/// The difference of two sequences is the only number from -2^31 to 2^31 - 1 that is congruent to it
/// modulo 2^32.
pub fn delta_is_congruent()
    ensures { DeltaIsCongruent }
{}

/// Each of two sequences is before the other exactly where they are 2^31 apart.
pub fn both_before_at_half()
    ensures { BothBeforeAtHalf }
{}
