// The database under each site: what a transaction holds, what clashes and conflicts, the end of an operation, and
// commit here.
#![tactic(auto, unfolding(protocol::specs::Database::executes, protocol::specs::Database::held_reads, protocol::specs::Database::held_writes, protocol::specs::Database::held, protocol::specs::Database::clashes_with, protocol::specs::Database::conflicts_with, protocol::specs::Database::woken, protocol::specs::Database::appended, protocol::specs::Database::stored, protocol::specs::Database::ended))]

ghost use Rattle.std.specs.Prelude.{◌≡◌};
ghost use Rattle.protocol.specs.Database.{executes, held_reads, held_writes, held, clashes_with, conflicts_with, clash, conflicts, noted, ended, woken, appended, stored};
ghost use Rattle.rules.specs.Turn.{few_versions};

use crate::row::{status_in, store_at};
use crate::slot::Slot;
use crate::view::View;
use protocol::{ACTIVE, BLOCKED, Log, PRE_COMMIT, Place, Row, Txn};

// Does a transaction of status v execute at the site?
fn executes(v: u8) -> bool
    ensures { result ≡ executes v }
{
    matches!(v, ACTIVE | BLOCKED | PRE_COMMIT)
}

// What transaction x of status v holds for reading at site i. The three go apart here, as in the definitions.
fn held_reads(x: &Txn, i: usize, v: u8) -> u32
    ensures { result ≡ held_reads x.now i v }
{
    if executes(v) && x.home as usize == i {
        x.reads
    } else {
        0
    }
}

// What transaction x of status v holds for writing at site i.
fn held_writes(x: &Txn, i: usize, v: u8) -> u32
    ensures { result ≡ held_writes x.now i v }
{
    if executes(v) { x.writes } else { 0 }
}

// What transaction x of status v holds at site i.
fn held(x: &Txn, i: usize, v: u8) -> u32
    ensures { result ≡ held x.now i v }
{
    sets::union(held_reads(x, i, v), held_writes(x, i, v))
}

// Does the pending operation of x clash with y, which has status v at site i?
fn clashes_with(x: &Txn, y: &Txn, i: usize, v: u8) -> bool
    ensures { result ≡ clashes_with x.now y.now i v }
{
    sets::overlap(held_writes(y, i, v), x.pendingreads)
        || sets::overlap(held(y, i, v), x.pendingwrites)
}

// Does x conflict with y, which has status v at site i?
fn conflicts_with(x: &Txn, y: &Txn, i: usize, v: u8) -> bool
    ensures { result ≡ conflicts_with x.now y.now i v }
{
    sets::overlap(held(y, i, v), x.writes)
}

impl View<'_> {
    // Does the pending operation of t meet a lock clash at the site, whose statuses are r?
    pub(crate) fn clash(&self, r: &Row, t: Slot) -> bool
        ensures { result ≡ clash self.now.count self.now.txns.now self.now.site r.now t }
    {
        let x = &self.txns[t.index()];
        (0..self.count).any(|u| {
            u != t.index() && clashes_with(x, &self.txns[u], self.site, status_in(r, u))
        })
    }

    // The conflicts of t at the site, whose statuses are r.
    pub(crate) fn conflicts(&self, r: &Row, t: Slot) -> u32
        ensures { result ≡ conflicts self.now.count self.now.txns.now self.now.site r.now t }
    {
        let x = &self.txns[t.index()];
        (0..self.count)
            .filter(|&u| {
                u != t.index() && conflicts_with(x, &self.txns[u], self.site, status_in(r, u))
            })
            .fold(0, sets::with)
    }
}

// What x has noted once its pending operation has ended at site p.
fn noted(x: Txn, p: Place) -> [u8; 32]
    requires { few_versions p }
    ensures { result ≡ noted x p }
{
    let first = sets::minus(x.pendingreads, sets::union(x.reads, x.writes));
    let mut l = x.noted;
    for (o, v) in l.iter_mut().enumerate() {
        if sets::has(first, o) {
            *v = p.versions[o] + 1;
        }
    }
    l
}

// x once its pending operation has ended at site p, its home.
pub(crate) fn ended(x: Txn, p: Place) -> Txn
    requires { few_versions p }
    ensures { result ≡ ended x p }
{
    Txn {
        reads: sets::union(x.reads, x.pendingreads),
        writes: sets::union(x.writes, x.pendingwrites),
        pendingreads: 0,
        pendingwrites: 0,
        noted: noted(x, p),
        ..x
    }
}

// Site p with *remove* true if its queue is not empty.
pub(crate) fn woken(p: Place) -> Place
    ensures { result ≡ woken p }
{
    Place {
        remove: p.remove || !sets::is_empty(p.queue),
        ..p
    }
}

// The log with t at its end.
fn appended(mut l: Log, t: Slot) -> Log
    ensures { result ≡ appended l t }
{
    if l.length < 32 {
        l.entries[l.length as usize] = t.index() as u8;
        l.length += 1;
    }
    l
}

// Site p once t, which writes these objects, has committed there.
pub(crate) fn stored(p: Place, t: Slot, writes: u32) -> Place
    ensures { result ≡ stored p t writes }
{
    let version = (t.index() + 1) as u8;
    woken(Place {
        log: appended(p.log, t),
        versions: store_at(writes, version, p.versions),
        ..p
    })
}
