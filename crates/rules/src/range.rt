// The range test, clause by clause. The counts of sites and of transactions are two numbers here, as in the definitions.
ghost use Rattle.std.specs.Prelude.{◌≡◌, not, cond, ◌&&◌, ◌||◌, ◌+◌, ◌<◌, ◌≤◌, ◌==◌, nat_le, nat_lt, length, slice_index_or};
ghost use Rattle.std.specs.List.{list_all};
ghost use Rattle.sets.specs.Set.{has};
ghost use Rattle.protocol.specs.Lists.{all_below, all_of, times};
ghost use Rattle.protocol.specs.State.{row_at, place_at, txn_in, status_in};
ghost use Rattle.protocol.specs.Range.{within, txn_fine, senders, statuses_fine, channel_fine, versions_fine, queue_fine, log_fine, site_fine, in_range};

use crate::row::status_in;
use crate::table::{count_fine, homes_fine, priorities_differ, sites_fine};
use protocol::{ABORTED, COMMITTED, Channel, IDLE, Place, Row, State, Txn};

// Does the set m name only numbers below n?
#[tactic(auto, unfolding(protocol::specs::Range::within))]
fn within(n: usize, m: u32) -> bool
    ensures { result ≡ within n m }
{
    sets::is_empty(sets::minus(m, sets::first(n)))
}

// Is no entry of the list above `top`?
fn none_above(list: &[u8; 32], top: usize) -> bool
    ensures { result ≡ all_below 32 (λ o. nat_le (slice_index_or list.now o 0) top) }
{
    list.iter().all(|v| usize::from(*v) <= top)
}

// Is transaction x in range?
#[tactic(auto, unfolding(protocol::specs::Range::txn_fine))]
fn txn_fine(sites: usize, n: usize, x: &Txn) -> bool
    requires { n ≤ 32 }
    ensures { result ≡ txn_fine sites n x.now }
{
    within(sites, x.missing) && none_above(&x.noted, n + 1)
}

// Are the statuses of the first n transactions 0 to 6?
fn statuses_fine(n: usize, r: &Row) -> bool
    ensures { result ≡ statuses_fine n r.now }
{
    (0..n).all(|t| status_in(r, t) <= ABORTED)
}

// Up to where a sender of a ready about t may reach: it is a site, and t is in the table.
fn senders(sites: usize, n: usize, t: usize) -> usize
    ensures { result ≡ senders sites n t }
{
    if t < n { sites } else { 0 }
}

// Do the ready messages name only sites and transactions of the table?
fn ready_fine(sites: usize, n: usize, ready: &[u32; 32]) -> bool
    ensures { result ≡ all_below 32 (λ t. within (senders sites n t) (slice_index_or ready.now t 0)) }
{
    ready
        .iter()
        .enumerate()
        .all(|(t, m)| within(senders(sites, n, t), *m))
}

// Does the channel name only sites and transactions of the table?
#[tactic(auto, unfolding(protocol::specs::Range::channel_fine))]
fn channel_fine(sites: usize, n: usize, c: &Channel) -> bool
    ensures { result ≡ channel_fine sites n c.now }
{
    within(n, c.remote)
        && within(n, c.commit)
        && within(n, c.abort)
        && ready_fine(sites, n, &c.ready)
}

// Are the versions at the site 0 to n?
#[tactic(auto, unfolding(protocol::specs::Range::versions_fine))]
fn versions_fine(n: usize, p: &Place) -> bool
    ensures { result ≡ versions_fine n p.now }
{
    none_above(&p.versions, n)
}

// Has each transaction of the table that is in q its home elsewhere than at site i, and is it idle there?
fn queued_fine(xs: &[Txn], i: usize, r: &Row, q: u32) -> bool
    ensures { result ≡ all_below (length xs.now) (λ t. not (has q t) || (not ((txn_in xs.now t).home == i) && status_in r.now t == 0)) }
{
    xs.iter().enumerate().all(|(t, x)| {
        !sets::has(q, t) || (x.home as usize != i && status_in(r, t) == IDLE)
    })
}

// Does the queue of site i name only transactions of the table that have their home elsewhere and are idle there?
#[tactic(auto, unfolding(protocol::specs::Range::queue_fine))]
fn queue_fine(xs: &[Txn], i: usize, r: &Row, q: u32) -> bool
    ensures { result ≡ queue_fine (length xs.now) xs.now i r.now q }
{
    within(xs.len(), q) && queued_fine(xs, i, r, q)
}

// Is each entry of a log a transaction of the table?
fn entries_fine(n: usize, log: &[u8]) -> bool
    ensures { result ≡ all_of (λ t. nat_lt t n) log.now }
{
    log.iter().all(|v| usize::from(*v) < n)
}

// How often t stands in a log.
fn times(t: usize, log: &[u8]) -> usize
    ensures { result ≡ times t log.now }
{
    log.iter().filter(|v| usize::from(**v) == t).count()
}

// Does each of the first n transactions stand in the log once where it is committed, and not at all where it is not?
fn logged_once(n: usize, r: &Row, log: &[u8]) -> bool
    ensures { result ≡ all_below n (λ t. times t log.now == cond (status_in r.now t == 5) 1 0) }
{
    (0..n).all(|t| times(t, log) == usize::from(status_in(r, t) == COMMITTED))
}

// Does the log hold exactly the transactions committed at the site, each once?
#[tactic(auto, unfolding(protocol::specs::Range::log_fine))]
fn log_fine(n: usize, r: &Row, p: &Place) -> bool
    ensures { result ≡ log_fine n r.now p.now }
{
    let Some(log) = p.log.entries.get(..p.log.length as usize) else {
        return false;
    };
    entries_fine(n, log) && logged_once(n, r, log)
}

// Is site i in range?
#[tactic(auto, unfolding(protocol::specs::Range::site_fine))]
fn site_fine(sites: usize, xs: &[Txn], i: usize, r: &Row, p: &Place) -> bool
    ensures { result ≡ site_fine sites (length xs.now) xs.now i r.now p.now }
{
    let n = xs.len();
    statuses_fine(n, r)
        && channel_fine(sites, n, &p.channel)
        && versions_fine(n, p)
        && queue_fine(xs, i, r, p.queue)
        && log_fine(n, r, p)
}

// Is each transaction of the table in range?
fn txns_fine(sites: usize, xs: &[Txn]) -> bool
    requires { length xs.now ≤ 32 }
    ensures { result ≡ all_below (length xs.now) (λ t. txn_fine sites (length xs.now) (txn_in xs.now t)) }
{
    xs.iter().all(|x| txn_fine(sites, xs.len(), x))
}

// Is each of the sites in range?
fn places_fine(sites: usize, xs: &[Txn], s: &State) -> bool
    requires { sites ≤ 8 }
    ensures { result ≡ all_below sites (λ i. site_fine sites (length xs.now) xs.now i (row_at s.now i) (place_at s.now i)) }
{
    (0..sites).all(|i| site_fine(sites, xs, i, &s.rows[i], &s.places[i]))
}

// Is the state in range? Where a count is refused nothing else is looked at.
#[tactic(auto, using(crate::proofs::Ranges::in_range_by_parts), unfolding(protocol::specs::Setup::sites_fine, protocol::specs::Setup::count_fine))]
pub(crate) fn in_range(s: &State) -> bool
    ensures { result ≡ in_range s.now }
{
    let sites = s.sites as usize;
    let n = s.count as usize;
    if !sites_fine(s.sites) || !count_fine(n) {
        return false;
    }
    let xs = &s.txns[..n];
    homes_fine(s.sites, xs)
        && priorities_differ(xs)
        && txns_fine(sites, xs)
        && places_fine(sites, xs, s)
}
