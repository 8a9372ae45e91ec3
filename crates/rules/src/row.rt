// A row of statuses: a status is read and written here alone.
ghost use Rattle.std.specs.Prelude.{◌≡◌};
ghost use Rattle.protocol.specs.State.{status_in, row_with};
ghost use Rattle.protocol.specs.Lists.{store_at};

use crate::slot::Slot;
use protocol::{IDLE, Row};

// The status of t, which is idle where the row has no room for t.
pub(crate) fn status_in(r: &Row, t: usize) -> u8
    ensures { result ≡ status_in r.now t }
{
    r.status.get(t).copied().unwrap_or(IDLE)
}

// The row with the status v for transaction t.
pub(crate) fn row_with(mut r: Row, t: Slot, v: u8) -> Row
    ensures { result ≡ row_with r t v }
{
    r.status[t.index()] = v;
    r
}

// The list with v at each place that is in m.
pub(crate) fn store_at(m: u32, v: u8, mut l: [u8; 32]) -> [u8; 32]
    ensures { result ≡ store_at m v l }
{
    if sets::is_empty(m) {
        return l;
    }
    for (k, x) in l.iter_mut().enumerate() {
        if sets::has(m, k) {
            *x = v;
        }
    }
    l
}
