// Channels: whether a message lies there, taking one, and sending.
#![tactic(auto, unfolding(protocol::specs::Channel::lies, protocol::specs::Channel::taken, protocol::specs::Channel::put))]

ghost use Rattle.std.specs.Prelude.{◌≡◌, cond};
ghost use Rattle.sets.specs.Set.{has, none, all_but};
ghost use Rattle.protocol.specs.Channel.{lies, taken, put, received, ready_with, delivered, homed_at};

use crate::Turn;
use crate::slot::Slot;
use protocol::{Channel, Message, Place, SITES, Txn};

// Does the message about t lie in the channel?
pub(crate) fn lies(m: Message, t: Slot, c: &Channel) -> bool
    ensures { result ≡ lies m t c.now }
{
    match m {
        Message::Remote => sets::has(c.remote, t.index()),
        Message::Ready(k) => sets::has(c.ready[t.index()], k as usize),
        Message::Commit => sets::has(c.commit, t.index()),
        Message::Abort => sets::has(c.abort, t.index()),
    }
}

// The channel without the message about t.
fn taken(m: Message, t: Slot, c: Channel) -> Channel
    ensures { result ≡ taken m t c }
{
    match m {
        Message::Remote => Channel {
            remote: sets::without(c.remote, t.index()),
            ..c
        },
        Message::Ready(k) => {
            let mut ready = c.ready;
            ready[t.index()] = sets::without(ready[t.index()], k as usize);
            Channel { ready, ..c }
        }
        Message::Commit => Channel {
            commit: sets::without(c.commit, t.index()),
            ..c
        },
        Message::Abort => Channel {
            abort: sets::without(c.abort, t.index()),
            ..c
        },
    }
}

// Site p without the message about t.
pub(crate) fn received(m: Message, t: Slot, p: Place) -> Place
    ensures { result ≡ received m t p }
{
    Place {
        channel: taken(m, t, p.channel),
        ..p
    }
}

// Puts in one more sender, k, of a ready about each transaction of ts.
fn ready_with(ready: &mut [u32; 32], ts: u32, k: usize)
    ensures { ready.new ≡ ready_with ready.old ts k }
{
    for (t, from) in ready.iter_mut().enumerate() {
        if sets::has(ts, t) {
            *from = sets::with(*from, k);
        }
    }
}

// Puts in the message about each transaction of ts.
fn put(m: Message, ts: u32, c: &mut Channel)
    ensures { c.new ≡ put m ts c.old }
{
    match m {
        Message::Remote => c.remote = sets::union(c.remote, ts),
        Message::Ready(k) => ready_with(&mut c.ready, ts, k as usize),
        Message::Commit => c.commit = sets::union(c.commit, ts),
        Message::Abort => c.abort = sets::union(c.abort, ts),
    }
}

// Sends the message about each transaction of ts to each of these sites.
fn multicast(m: Message, sites: u32, ts: u32, ps: &mut [Place; SITES])
    ensures { ps.new ≡ delivered m (λ j. cond (has sites j) ts none) ps.old }
{
    for (j, p) in ps.iter_mut().enumerate() {
        if sets::has(sites, j) {
            put(m, ts, &mut p.channel);
        }
    }
}

// Sends ready from site i about each transaction of ts to its home, one by one: site by site is shorter to prove and misses
// the speed bar, with 217 µs a run for 181.
fn ready_home(i: usize, ts: u32, xs: &[Txn; 32], ps: &mut [Place; SITES])
    ensures { ps.new ≡ delivered (Message.Ready i) (homed_at xs.now ts) ps.old }
{
    for (t, x) in xs.iter().enumerate() {
        let j = x.home as usize;
        if sets::has(ts, t) && j < SITES {
            let from = &mut ps[j].channel.ready[t];
            *from = sets::with(*from, i);
        }
    }
}

// Sends the messages of a turn at site i.
pub(crate) fn posted(d: &Turn, i: usize, sites: u32, xs: &[Txn; 32], ps: &mut [Place; SITES])
    ensures { ps.new ≡ delivered (Message.Ready i) (homed_at xs.now d.now.readies) (delivered d.now.message (λ j. cond (has (all_but sites i) j) d.now.about none) ps.old) }
{
    multicast(d.message, sets::all_but(sites as usize, i), d.about, ps);
    ready_home(i, d.readies, xs, ps);
}
