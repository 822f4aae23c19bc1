//! What follows from the contracts of a zone's calls. A call does nothing: its contract is the law.

ghost use Rattle.uma_zone.specs.ReuseLaw.{WaitsForLaterGoal};
ghost use Rattle.uma_zone.specs.SafeReuse.{ReusesSafely};
ghost use Rattle.uma_zone.specs.SealLaw.{GoalsAreLater};
ghost use Rattle.uma_zone.specs.TriesLaw.{TriesLoseNone};
ghost use Rattle.uma_zone.specs.TrimLaw.{TrimsKeepFloor, DrainsLoseNone};
ghost use Rattle.uma_zone.specs.WorkingLaw.{TellsExtremes, IsFarthest, CountsMoves};

use smr_clock::Host;
use uma_life::{Body, Hooks};

/// Safe reuse: in a zone whose readers hold no lock, a freed item is usable again or handed out only after a poll has
/// returned true for the goal of its bucket. No section that was entered before the goal is open then.
///
/// The first clause describes each call on a seat by lists. The items that are usable after a call, and the item that
/// it handed out, are those that were usable before, those of a ripe bucket that its lookup found, and those that its
/// fetch got from the keg. `free_smr` adds none. So over any sequence of calls on any seats, an item that was usable
/// nowhere when `free_smr` took it came back in one of these ways. No freed item goes into the keg: only a cached item
/// can be given to the keg, and a freed item is cached again only when its bucket is ripe.
///
/// The second clause adds the goals, over any sequence of frees, tries, requests and reclaims on any seats. After its
/// `free_smr` an item is usable again only if a request got it from the keg, or found it in a ripe bucket whose goal
/// was made in that free or in a later call before the request. No hand of the clock is ever lowered, so a section that
/// was entered before the free is before that goal, and isn't open.
pub fn freed_items_wait<T: Body, K: Hooks<T>, H: Host>()
    ensures calls { ReusesSafely T K H H.Part T.Body K.Hooks H.Host }
    ensures goals { WaitsForLaterGoal T H H.Part T.Body H.Host }
{}

/// A trim that takes any bucket of a domain leaves at least the working set listed. It stops at the first bucket whose
/// removal would leave fewer items. Neither a trim nor a drain loses an item: the items taken and the items left are
/// all that were listed.
pub fn trims_keep_the_working_set<T: Body, H: Host>()
    ensures trims { TrimsKeepFloor T H H.Part T.Body H.Host }
    ensures drains { DrainsLoseNone T H H.Part T.Body H.Host }
{}

/// Over any sequence of puts and takes since a domain's last trim, the least and the greatest count that the domain
/// keeps are the extremes of the counts of listed items, at the trim and after each put or take. So no two of those
/// counts differ by more than the working set. Each put of a bucket, and each take by a lookup, is counted as one such
/// move.
pub fn the_working_set_is_how_far_the_count_moved<T: Body, H: Host>()
    ensures extremes { TellsExtremes }
    ensures farthest { IsFarthest }
    ensures moves { CountsMoves T H H.Part T.Body H.Host }
{}

/// Each loose bucket of a domain that is tried stays loose or is sealed, in its order, and none is lost. A bucket that
/// is sealed waits for a goal that was made in these tries, and so after its items were freed.
pub fn tries_lose_no_bucket<T: Body, H: Host>()
    ensures { TriesLoseNone T H H.Part T.Body H.Host }
{}

/// A freed item waits for a goal that is made no earlier than in its own free. The bucket that a free fills has only
/// items that this free or an earlier one freed. If it is sealed then, its goal is made in this free. A bucket that
/// stays loose is sealed by a later try.
pub fn goals_are_later_than_frees<T: Body, H: Host>()
    ensures { GoalsAreLater T H H.Part T.Body H.Host }
{}
