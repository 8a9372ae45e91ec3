// What an event is answered in a state in range.
ghost use Rattle.std.specs.Prelude.{◌≡◌, ◌-◌, cond, slice_index_or};
ghost use Rattle.protocol.specs.Answer.{message_of, ill_kind, ill_from, ill_filled, anywhere, home_table, home_met};
ghost use Rattle.protocol.specs.Refusals.{answer_of};
ghost use Rattle.rules.specs.Refusal.{asked_by, home_number, misplaced_by, receive_refusal, refusal_of};

use crate::Here;
use crate::channel::lies;
use crate::row::status_in;
use crate::slot::Slot;
use protocol::Refusal::{
    IllFilled, LockClash, NoAction, NoMessage, NoScan, NoSite, NoTransaction, WrongHome,
    WrongMissing, WrongStatus,
};
use protocol::{
    ABORTED, ACTIVE, Action, BLOCKED, COMMITTED, Event, IDLE, Message, PRE_COMMIT, Refusal, START,
};

// Where an action is taken: anywhere, at the transaction's home, or away from it.
#[derive(Clone, Copy)]
enum Where {
    Either,
    Home,
    Away,
}

// The required home of each action, 1 to 12, in the table that document 01 asks for.
const HOMES: [Where; 12] = [
    Where::Home,
    Where::Home,
    Where::Either,
    Where::Home,
    Where::Home,
    Where::Home,
    Where::Away,
    Where::Home,
    Where::Away,
    Where::Away,
    Where::Either,
    Where::Either,
];

// The message of a kind, which is total as its definition is: any kind but 1 to 4 gives remote, and its event is refused as
// ill filled.
#[tactic(auto, unfolding(protocol::specs::Answer::message_of))]
fn message_of(kind: u32, from: u32) -> Message
    ensures { result ≡ message_of kind from }
{
    match kind {
        2 => Message::Ready(from),
        3 => Message::Commit,
        4 => Message::Abort,
        _ => Message::Remote,
    }
}

// The rule that the action number picks, or the refusal of an unknown one, in the one match that document 01 asks for.
#[tactic(auto, unfolding(protocol::specs::Answer::action_of, protocol::specs::Answer::no_action))]
pub(crate) fn asked(e: Event) -> Result<Action, Refusal>
    ensures { result ≡ asked_by e }
{
    match e.action {
        1 => Ok(Action::Create),
        2 => Ok(Action::BeginOperation {
            reads: e.reads,
            writes: e.writes,
        }),
        3 => Ok(Action::EndOperation),
        4 => Ok(Action::BeginCommit),
        5 => Ok(Action::EndCommit),
        6 => Ok(Action::LocalAbort),
        7 => Ok(Action::Receive(Message::Remote)),
        8 => Ok(Action::Receive(Message::Ready(e.from))),
        9 => Ok(Action::Receive(Message::Commit)),
        10 => Ok(Action::Receive(Message::Abort)),
        11 => Ok(Action::ExecuteRemote),
        12 => Ok(Action::Discard(message_of(e.kind, e.from))),
        0 | 13..=u32::MAX => Err(NoAction),
    }
}

// Is the kind ill filled? Here and below an event goes by its numbers: an `Action` has lost the fields that must be 0, and a
// wrong kind.
#[tactic(auto, unfolding(protocol::specs::Answer::ill_kind))]
fn ill_kind(e: Event) -> bool
    ensures { result ≡ ill_kind e }
{
    if e.action == 12 {
        !(1..=4).contains(&e.kind)
    } else {
        e.kind != 0
    }
}

// Is the sender ill filled?
#[tactic(auto, unfolding(protocol::specs::Answer::ill_from))]
fn ill_from(sites: u32, e: Event) -> bool
    ensures { result ≡ ill_from sites e }
{
    if e.action == 8 || (e.action == 12 && e.kind == 2) {
        sites <= e.from
    } else {
        e.from != 0
    }
}

// Is a field ill filled?
#[tactic(auto, unfolding(protocol::specs::Answer::ill_filled, protocol::specs::Answer::ill_reads, protocol::specs::Answer::ill_writes, protocol::specs::Answer::ill_transaction))]
fn ill_filled(sites: u32, e: Event) -> bool
    ensures { result ≡ ill_filled sites e }
{
    ill_kind(e)
        || ill_from(sites, e)
        || (e.action != 2 && (e.reads != 0 || e.writes != 0))
        || (e.action == 11 && e.txn != 0)
}

// Is the required home h met, where `here` says whether the site is the transaction's home?
#[tactic(auto, unfolding(protocol::specs::Answer::home_met))]
fn home_met(h: Where, here: bool) -> bool
    ensures { result ≡ home_met (home_number h) here }
{
    match h {
        Where::Either => true,
        Where::Home => here,
        Where::Away => !here,
    }
}

// Is the home of action a met? Document 01 asks for the table by number.
#[tactic(auto, unfolding(protocol::specs::Answer::home_met))]
fn right_home(a: u32, here: bool) -> bool
    ensures { result ≡ home_met (slice_index_or home_table (a - 1) anywhere) here }
{
    HOMES
        .get(a.saturating_sub(1) as usize)
        .is_none_or(|h| home_met(*h, here))
}

// The refusal, unless the test passes.
pub(crate) fn demand(met: bool, refusal: Refusal) -> Result<(), Refusal>
    ensures { result ≡ cond met (Ok tt) (Err refusal) }
{
    if met { Ok(()) } else { Err(refusal) }
}

// What is asked of every event whose action is known.
#[tactic(auto, unfolding(protocol::specs::Check::first_of))]
pub(crate) fn misplaced(sites: u32, count: u32, e: Event, here: bool) -> Result<(), Refusal>
    ensures { answer_of result ≡ misplaced_by sites count here e }
{
    demand(e.site < sites, NoSite)?;
    demand(e.txn < count, NoTransaction)?;
    demand(!ill_filled(sites, e), IllFilled)?;
    demand(right_home(e.action, here), WrongHome)
}

// What a receive asks.
fn receive_refusal(m: Message, h: &Here, t: Slot) -> Result<(), Refusal>
    ensures { answer_of result ≡ receive_refusal m h.now t }
{
    let v = status_in(&h.row, t.index());
    match m {
        Message::Remote => demand(v == IDLE, WrongStatus)?,
        Message::Ready(_) => {
            demand(v == PRE_COMMIT, WrongStatus)?;
            demand(!sets::is_empty(h.txn.missing), WrongMissing)?;
        }
        Message::Commit => demand(v == PRE_COMMIT, WrongStatus)?,
        Message::Abort => demand(v != COMMITTED && v != ABORTED, WrongStatus)?,
    }
    demand(lies(m, t, &h.place.channel), NoMessage)
}

// What the action itself asks of transaction t. An end of operation is told whether it meets a lock clash at home.
pub(crate) fn refusal(a: Action, clash: bool, t: Slot, h: &Here) -> Result<(), Refusal>
    ensures { answer_of result ≡ refusal_of a clash t h.now }
{
    let v = status_in(&h.row, t.index());
    match a {
        Action::Create => demand(v == START, WrongStatus),
        Action::BeginOperation { .. } | Action::BeginCommit => demand(v == ACTIVE, WrongStatus),
        Action::EndOperation => {
            demand(v == BLOCKED, WrongStatus)?;
            demand(!clash, LockClash)
        }
        Action::EndCommit => {
            demand(v == PRE_COMMIT, WrongStatus)?;
            demand(sets::is_empty(h.txn.missing), WrongMissing)
        }
        Action::LocalAbort => demand(v == BLOCKED, WrongStatus),
        Action::Receive(m) => receive_refusal(m, h, t),
        Action::ExecuteRemote => demand(!sets::is_empty(h.place.queue) && h.place.remove, NoScan),
        Action::Discard(m) => {
            demand(v == ABORTED, WrongStatus)?;
            demand(lies(m, t, &h.place.channel), NoMessage)
        }
    }
}
