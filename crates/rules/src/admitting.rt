// Whether an event is admitted: the checks, one after the other.
ghost use Rattle.std.specs.Prelude.{◌≡◌};
ghost use Rattle.rules.specs.Turn.{index_of, admitted, admitted_by};

use crate::answer::{asked, misplaced, refusal};
use crate::slot::Slot;
use crate::{Here, Told};
use protocol::{Action, Event, Refusal};

// k where it is below n, else 0: an index that is in place whatever an event names. An Option would be tested twice, here and
// by `misplaced`, whose turn comes after the action's.
pub(crate) fn index(k: u32, n: u32) -> usize
    ensures { result ≡ index_of k n }
{
    if k < n { k as usize } else { 0 }
}

// The action of an event among so many sites and transactions, or why the event is refused, where h is what stands at its
// site and its transaction t, and `told` is what the table told it. The turn is done after this, as a Result of a whole turn
// takes a third longer for a run.
pub(crate) fn admitted(
    e: Event,
    sites: u32,
    count: u32,
    told: &Told,
    h: &Here,
    t: Slot,
) -> Result<Action, Refusal>
    ensures { admitted result ≡ admitted_by e sites count told.now h.now t }
{
    let a = asked(e)?;
    misplaced(sites, count, e, h.txn.home == e.site)?;
    refusal(a, told.clash, t, h)?;
    Ok(a)
}
