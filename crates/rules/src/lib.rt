// The code: setup, step and run, each of which promises what the definitions of the crate protocol say, for every input.
// Below them stand functions on a row, a site, a transaction or the table, so that no event copies the state.
#![tactic(auto)]

ghost use Rattle.std.specs.Prelude.{◌≡◌, length};
ghost use Rattle.protocol.specs.Refusals.{answer_of, started, stepped, ran};
ghost use Rattle.protocol.specs.Setup.{setup, setup_of};
ghost use Rattle.protocol.specs.Answer.{step};
ghost use Rattle.protocol.specs.Run.{events_of, run, answers_after};
ghost use Rattle.rules.specs.Events.{run_refusal};

pub(crate) mod admitting;
pub(crate) mod answer;
pub(crate) mod asking;
pub(crate) mod channel;
pub(crate) mod copied;
pub(crate) mod course;
pub(crate) mod database;
pub(crate) mod figure;
pub(crate) mod order;
pub(crate) mod range;
pub(crate) mod row;
pub(crate) mod scan;
pub(crate) mod slot;
pub(crate) mod table;
pub(crate) mod view;

use crate::answer::demand;
use crate::copied::{blank, judged, with_entry};
use crate::course::{performed, take};
use crate::range::in_range;
use protocol::{Answered, Entry, Event, Message, Place, Refusal, Row, Scan, State, Txn};

// What an event reads of the state and can change there, but for the channels of other sites: the statuses at its site, what
// else belongs to the site, and its transaction. The number of the transaction goes beside it, as in the definitions.
#[derive(Clone, Copy)]
pub(crate) struct Here {
    pub row: Row,
    pub place: Place,
    pub txn: Txn,
}

// What the table of transactions tells an event: whether its end of operation meets a lock clash at home, and the scan of
// its site as it ends, or as it begins where the event scans nothing and nobody reads it.
#[derive(Clone, Copy)]
pub(crate) struct Told {
    pub clash: bool,
    pub scan: Scan,
}

// What an event leaves: how many messages it sent, what it makes of the parts that it read, a message with the set of the
// transactions about which it goes to all other sites, and the set of those about which ready goes to their home. A message
// about no transaction goes nowhere, so it is no Option.
#[derive(Clone, Copy)]
pub(crate) struct Turn {
    pub sent: u32,
    pub here: Here,
    pub message: Message,
    pub about: u32,
    pub readies: u32,
}

// Sets up the sites and the lent table of transactions. This is the only function that touches the table. The state is made
// in one place and changed there, as copies of it would double a setup's time.
pub fn setup(sites: u32, table: &[Entry]) -> Answered<()>
    ensures { started result ≡ setup sites table.now }
{
    let mut s = blank();
    for (t, x) in s.txns.iter_mut().enumerate() {
        if let Some(e) = table.get(t) {
            *x = with_entry(*x, *e);
        }
    }
    judged(sites, table.len(), s)
}

// The same for a caller that holds its entries by value, of which the first n count. Its promise is of a count and 32
// entries, so it stands beside the one of a slice. More entries than there is room for are refused as no entry is.
pub fn setup_of(sites: u32, n: usize, entries: [Entry; 32]) -> Answered<()>
    ensures { started result ≡ setup_of sites n entries }
{
    match entries.get(..n) {
        Some(table) => setup(sites, table),
        None => setup(sites, &[]),
    }
}

// What the event returns: how many messages it sent, or its refusal, and the state after it.
#[tactic(auto, using(laws::specs::Enabled::out_step))]
pub fn step(mut s: State, e: Event) -> Answered<u32>
    ensures { stepped result ≡ step s e }
{
    let outcome = if in_range(&s) {
        take(&mut s, e)
    } else {
        Err(Refusal::OutOfRange)
    };
    Answered { outcome, state: s }
}

// Why a run of n events with room for so many answers is refused.
#[tactic(auto, unfolding(protocol::specs::Check::first_of))]
fn run_refusal(n: usize, room: usize, s: &State) -> Result<(), Refusal>
    ensures { answer_of result ≡ run_refusal n room s.now }
{
    demand(n <= 1024, Refusal::TooManyEvents)?;
    demand(n <= room, Refusal::NoRoom)?;
    demand(in_range(s), Refusal::OutOfRange)
}

// Takes the events, seven numbers each, as C programs lend them, one after the other, past refused ones, and writes one
// answer an event. A run that is refused writes nothing and gives the state back.
pub fn run(s: State, events: &[u32], answers: &mut [u8]) -> Answered<u32>
    ensures { (ran result ≡ run s (events_of events.now) (length answers.old)) × (answers.new ≡ answers_after s (events_of events.now) answers.old) }
{
    match run_refusal(events.len() / 7, answers.len(), &s) {
        Ok(()) => performed(s, events, answers),
        Err(refusal) => Answered {
            outcome: Err(refusal),
            state: s,
        },
    }
}
