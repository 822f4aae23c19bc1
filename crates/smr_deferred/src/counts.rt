//! The counts of a retire list, which only contracts see, and the law that its advances are few.
ghost use Rattle.std.specs.Prelude.{◌≡◌};
ghost use Rattle.smr_deferred.specs.Numbers.{AreFew};
ghost use Rattle.smr_deferred.specs.RetireList.{limit_of, counts_of};

use crate::retire_list::RetireList;
use boxcar::tag::{Names, Tag};
use smr_clock::Host;

/// The four numbers of a list, which have no bound. Contracts alone see them: it has no bytes.
#[derive(Drop)]
pub(crate) struct Counts {
    tag: Tag,
}

/// One value more was listed.
struct OneRetired;

impl Names<Counts> for OneRetired {
    ghost use Rattle.smr_deferred.specs.Numbers.{one_retired, spelled};
    ghost use Rattle.smr_deferred.specs.Counts.{numbers_in};

    ghost numbers = { λ counts. spelled (one_retired (numbers_in counts)) };
}

/// One push more.
struct OnePushed;

impl Names<Counts> for OnePushed {
    ghost use Rattle.smr_deferred.specs.Numbers.{one_pushed, spelled};
    ghost use Rattle.smr_deferred.specs.Counts.{numbers_in};

    ghost numbers = { λ counts. spelled (one_pushed (numbers_in counts)) };
}

/// One advance more answered.
struct OneAnswered;

impl Names<Counts> for OneAnswered {
    ghost use Rattle.smr_deferred.specs.Numbers.{one_answered, spelled};
    ghost use Rattle.smr_deferred.specs.Counts.{numbers_in};

    ghost numbers = { λ counts. spelled (one_answered (numbers_in counts)) };
}

impl Counts {
    ghost use Rattle.smr_deferred.specs.Numbers.{none, one_retired, one_pushed, one_answered};
    ghost use Rattle.smr_deferred.specs.Counts.{numbers_in};

    /// All are 0.
    pub(crate) fn none() -> Counts
        ensures { numbers_in result ≡ none }
    {
        Counts { tag: Tag::empty() }
    }

    pub(crate) fn retired(&self) -> Counts
        ensures { numbers_in result ≡ one_retired (numbers_in self.now) }
    {
        Counts {
            tag: Tag::of::<Counts, OneRetired>(self),
        }
    }

    pub(crate) fn pushed(&self) -> Counts
        ensures { numbers_in result ≡ one_pushed (numbers_in self.now) }
    {
        Counts {
            tag: Tag::of::<Counts, OnePushed>(self),
        }
    }

    pub(crate) fn answered(&self) -> Counts
        ensures { numbers_in result ≡ one_answered (numbers_in self.now) }
    {
        Counts {
            tag: Tag::of::<Counts, OneAnswered>(self),
        }
    }
}

/// At most one advance answered for each `limit` values listed, and one for each push.
pub fn advances_are_few<T, H: Host>(list: &RetireList<T, H>)
    ensures { AreFew (limit_of list.now) (counts_of list.now) }
{
    let _ = list;
}
