// The scan: the queue of a site taken by priority.
#![tactic(auto, unfolding(protocol::specs::Scan::makes_wait, protocol::specs::Scan::waits, protocol::specs::Scan::submits, protocol::specs::Scan::scan_with, protocol::specs::Scan::scan_one))]

ghost use Rattle.std.specs.Prelude.{◌≡◌};
ghost use Rattle.protocol.specs.Scan.{makes_wait, waits, asked, submits, must_wait, scan_with, scan_one, scan_all};

use crate::order::{highest, outranks};
use crate::row::{row_with, status_in, store_at};
use crate::slot::Slot;
use crate::view::View;
use protocol::{ABORTED, BLOCKED, PRE_COMMIT, Row, Scan, Txn};

// Does y, a conflict of x that has status v at site i, make x wait?
fn makes_wait(x: &Txn, y: &Txn, i: usize, v: u8) -> bool
    ensures { result ≡ makes_wait x.now y.now i v }
{
    y.home as usize != i || (v == PRE_COMMIT && !outranks(x, y))
}

// t waits on.
fn waits(t: Slot, c: Scan) -> Scan
    ensures { result ≡ waits t c }
{
    Scan {
        rest: sets::without(c.rest, t.index()),
        waiting: sets::with(c.waiting, t.index()),
        ..c
    }
}

impl View<'_> {
    // Does one of them, the conflicts of t, make t wait?
    fn must_wait(&self, r: &Row, t: Slot, them: u32) -> bool
        ensures { result ≡ must_wait self.now.count self.now.txns.now self.now.site r.now t them }
    {
        let x = &self.txns[t.index()];
        (0..self.count).any(|u| {
            sets::has(them, u) && makes_wait(x, &self.txns[u], self.site, status_in(r, u))
        })
    }

    // Those of them that are in pre_commit.
    fn asked(&self, r: &Row, them: u32) -> u32
        ensures { result ≡ asked self.now.count r.now them }
    {
        (0..self.count)
            .filter(|&u| sets::has(them, u) && status_in(r, u) == PRE_COMMIT)
            .fold(0, sets::with)
    }

    // t is submitted: its conflicts are aborted, ready goes home, and it is blocked.
    fn submits(&self, t: Slot, them: u32, c: Scan) -> Scan
        ensures { result ≡ submits self.now.count t them c }
    {
        let status = store_at(them, ABORTED, c.row.status);
        Scan {
            rest: sets::without(c.rest, t.index()),
            row: row_with(Row { status }, t, BLOCKED),
            aborts: sets::union(c.aborts, self.asked(&c.row, them)),
            readies: sets::with(c.readies, t.index()),
            ..c
        }
    }

    // What happens to one queued transaction whose conflicts are known.
    fn scan_with(&self, t: Slot, them: u32, c: Scan) -> Scan
        ensures { result ≡ scan_with self.now.count self.now.txns.now self.now.site t them c }
    {
        if self.must_wait(&c.row, t, them) {
            waits(t, c)
        } else {
            self.submits(t, them, c)
        }
    }

    // What happens to one queued transaction.
    fn scan_one(&self, t: Slot, c: Scan) -> Scan
        ensures { result ≡ scan_one self.now.count self.now.txns.now self.now.site t c }
    {
        self.scan_with(t, self.conflicts(&c.row, t), c)
    }

    // The whole rest of the queue: the highest is taken, and then what is left of it.
    pub(crate) fn scan_all(&self, c: Scan) -> Scan
        ensures { result ≡ scan_all self.now.count self.now.txns.now self.now.site c }
    {
        let Some(t) = highest(self.txns, c.rest) else {
            return c;
        };
        self.scan_all(self.scan_one(Slot::at(t), c))
    }
}
