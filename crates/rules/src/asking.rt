// What the table of transactions tells an event. Few events ask it.
#![tactic(auto, unfolding(crate::specs::Turn::told_of))]

ghost use Rattle.std.specs.Prelude.{◌≡◌};
ghost use Rattle.rules.specs.Turn.{scan_of, told_of};

use crate::slot::Slot;
use crate::view::View;
use crate::{Here, Told};
use protocol::{Event, Scan};

// The numbers of the actions that ask the table: an end of operation, at home, and a scan. The event goes by its number, as
// it may yet be refused.
const END_OPERATION: u32 = 3;

const EXECUTE_REMOTE: u32 = 11;

// A scan as it begins.
fn begun(h: &Here) -> Scan
    ensures { result ≡ scan_of h.now }
{
    Scan {
        rest: h.place.queue,
        row: h.row,
        waiting: 0,
        aborts: 0,
        readies: 0,
    }
}

impl View<'_> {
    // What the table tells an event at the site of transaction t.
    pub(crate) fn tells(&self, e: Event, t: Slot, h: &Here) -> Told
        ensures { result ≡ told_of e self.now.count self.now.txns.now self.now.site t h.now }
    {
        Told {
            clash: e.action == END_OPERATION
                && h.txn.home as usize == self.site
                && self.clash(&h.row, t),
            scan: if e.action == EXECUTE_REMOTE {
                self.scan_all(begun(h))
            } else {
                begun(h)
            },
        }
    }
}
