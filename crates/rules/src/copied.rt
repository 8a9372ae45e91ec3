// Below setup: the empty state, an entry of the lent table copied into a state, and the state judged.
ghost use Rattle.std.specs.Prelude.{◌≡◌};
ghost use Rattle.protocol.specs.State.{empty_channel, empty_state, txn_in};
ghost use Rattle.protocol.specs.Refusals.{answer_of, started};
ghost use Rattle.rules.specs.Copied.{from_entry, started_row, started_rows, setup_refusal, judged_of};

use crate::answer::demand;
use crate::table::{count_fine, homes_fine, priorities_differ, sites_fine};
use protocol::{
    Answered, Channel, Entry, IDLE, Log, Place, Refusal, Row, SITES, START, State, Txn,
};
use std::array;

// A channel in which no message lies.
fn silent() -> Channel
    ensures { result ≡ empty_channel }
{
    Channel {
        remote: 0,
        ready: [0u32; 32],
        commit: 0,
        abort: 0,
    }
}

// The empty state.
#[tactic(auto, unfolding(protocol::specs::State::empty_state))]
pub(crate) fn blank() -> State
    ensures { result ≡ empty_state }
{
    let zeros = [0u8; 32];
    let row = Row { status: zeros };
    let log = Log {
        length: 0,
        entries: zeros,
    };
    let place = Place {
        queue: 0,
        remove: false,
        log,
        versions: zeros,
        channel: silent(),
    };
    let txn = Txn {
        home: 0,
        priority: 0,
        reads: 0,
        writes: 0,
        pendingreads: 0,
        pendingwrites: 0,
        missing: 0,
        noted: zeros,
    };
    State {
        sites: 0,
        count: 0,
        rows: [row; SITES],
        places: [place; SITES],
        txns: [txn; 32],
    }
}

// The transaction with an entry copied into it.
pub(crate) fn with_entry(x: Txn, e: Entry) -> Txn
    ensures { result ≡ from_entry x e }
{
    Txn {
        home: e.home,
        priority: e.priority,
        ..x
    }
}

// The row of site i in a fresh state: start for those of the first n that have their home there.
fn started_row(n: usize, xs: &[Txn; 32], i: usize) -> Row
    ensures { result ≡ started_row n (λ t. (txn_in xs.now t).home) i }
{
    let mut status = [IDLE; 32];
    for t in 0..n.min(32) {
        if xs[t].home as usize == i {
            status[t] = START;
        }
    }
    Row { status }
}

// The rows of a fresh state.
fn started_rows(n: usize, xs: &[Txn; 32]) -> [Row; SITES]
    ensures { result ≡ started_rows n (λ t. (txn_in xs.now t).home) }
{
    array::from_fn(|i| started_row(n, xs, i))
}

// Why a setup of n entries is refused, which have been copied into the state.
#[tactic(auto, using(crate::proofs::Fresh::few), unfolding(protocol::specs::Check::first_of))]
fn setup_refusal(sites: u32, n: usize, s: &State) -> Result<(), Refusal>
    ensures { answer_of result ≡ setup_refusal sites n s.now }
{
    demand(sites_fine(sites), Refusal::WrongSites)?;
    demand(count_fine(n), Refusal::WrongCount)?;
    let xs = &s.txns[..n];
    demand(homes_fine(sites, xs), Refusal::NoHome)?;
    demand(priorities_differ(xs), Refusal::EqualPriorities)
}

// The setup of a state into which n entries have been copied. A refused one gives the empty state. The state is changed where
// it stands, as it is in `setup`.
#[tactic(auto, using(crate::proofs::Fresh::few_accepted))]
pub(crate) fn judged(sites: u32, n: usize, mut s: State) -> Answered<()>
    ensures { started result ≡ judged_of sites n s }
{
    let outcome = setup_refusal(sites, n, &s);
    match outcome {
        Ok(()) => {
            s.sites = sites;
            s.count = n as u32;
            s.rows = started_rows(n, &s.txns);
        }
        Err(_) => s = blank(),
    }
    Answered { outcome, state: s }
}
