// Figure 2: what each of the twelve actions does where it is enabled. An action changes what stands at its site and its
// transaction, and sends messages; the rest of the state is neither read nor copied, nor the table.
ghost use Rattle.std.specs.Prelude.{◌≡◌};
ghost use Rattle.rules.specs.Turn.{few_versions, here_status, quiet, telling, begins_operation, ends_operation, begins_commit, ends_commit, aborts_here, receives, scan_turn, discards, turn_by};

use crate::channel::received;
use crate::database::{ended, stored, woken};
use crate::row::row_with;
use crate::slot::Slot;
use crate::{Here, Turn};
use protocol::{
    ABORTED, ACTIVE, Action, BLOCKED, COMMITTED, Message, PRE_COMMIT, Place, Scan, Txn,
};

// What stands here, with the status v for transaction t.
fn with_status(h: Here, t: Slot, v: u8) -> Here
    ensures { result ≡ here_status h t v }
{
    Here {
        row: row_with(h.row, t, v),
        ..h
    }
}

// What an event leaves that sends nothing: a message about no transaction, whichever it is.
fn quiet(here: Here) -> Turn
    ensures { result ≡ quiet here }
{
    Turn {
        sent: 0,
        here,
        message: Message::Remote,
        about: 0,
        readies: 0,
    }
}

// What an event leaves that sends the message about t to these sites.
fn telling(message: Message, sites: u32, t: Slot, here: Here) -> Turn
    ensures { result ≡ telling message sites t here }
{
    Turn {
        sent: sets::count(sites),
        message,
        about: sets::with(0, t.index()),
        ..quiet(here)
    }
}

// The pending sets are those of the event, and t is blocked.
fn begin_operation(h: Here, t: Slot, reads: u32, writes: u32) -> Turn
    ensures { result ≡ begins_operation h t reads writes }
{
    let txn = Txn {
        pendingreads: reads,
        pendingwrites: writes,
        ..h.txn
    };
    quiet(Here {
        txn,
        ..with_status(h, t, BLOCKED)
    })
}

// At home t takes in its pending sets and is active again; away from home it is in pre_commit.
fn end_operation(h: Here, i: usize, t: Slot) -> Turn
    requires { few_versions h.place }
    ensures { result ≡ ends_operation h i t }
{
    if h.txn.home as usize == i {
        let txn = ended(h.txn, h.place);
        quiet(Here {
            txn,
            ..with_status(h, t, ACTIVE)
        })
    } else {
        quiet(with_status(h, t, PRE_COMMIT))
    }
}

// t is in pre_commit, a ready is missing from each other site, and remote goes to all of them.
fn begin_commit(h: Here, others: u32, t: Slot) -> Turn
    ensures { result ≡ begins_commit h others t }
{
    let txn = Txn {
        missing: others,
        ..h.txn
    };
    let here = Here {
        txn,
        ..with_status(h, t, PRE_COMMIT)
    };
    telling(Message::Remote, others, t, here)
}

// t commits here, and commit goes to all other sites.
fn end_commit(h: Here, others: u32, t: Slot) -> Turn
    ensures { result ≡ ends_commit h others t }
{
    let place = stored(h.place, t, h.txn.writes);
    let here = Here {
        place,
        ..with_status(h, t, COMMITTED)
    };
    telling(Message::Commit, others, t, here)
}

// t is aborted, and *remove* is true.
fn local_abort(h: Here, t: Slot) -> Turn
    ensures { result ≡ aborts_here h t }
{
    let place = Place {
        remove: true,
        ..h.place
    };
    quiet(Here {
        place,
        ..with_status(h, t, ABORTED)
    })
}

// Remote is taken, and t is queued; *remove* is true.
fn receive_remote(h: Here, t: Slot) -> Turn
    ensures { result ≡ receives Message.Remote h t }
{
    let p = received(Message::Remote, t, h.place);
    let place = Place {
        queue: sets::with(p.queue, t.index()),
        remove: true,
        ..p
    };
    quiet(Here { place, ..h })
}

// Ready is taken, and its sender leaves the missing set.
fn receive_ready(h: Here, t: Slot, from: u32) -> Turn
    ensures { result ≡ receives (Message.Ready from) h t }
{
    let place = received(Message::Ready(from), t, h.place);
    let txn = Txn {
        missing: sets::without(h.txn.missing, from as usize),
        ..h.txn
    };
    quiet(Here { place, txn, ..h })
}

// Commit is taken, and t commits here.
fn receive_commit(h: Here, t: Slot) -> Turn
    ensures { result ≡ receives Message.Commit h t }
{
    let place = stored(received(Message::Commit, t, h.place), t, h.txn.writes);
    quiet(Here {
        place,
        ..with_status(h, t, COMMITTED)
    })
}

// Abort is taken, and t is aborted and out of the queue; *remove* is true if the queue is not empty.
fn receive_abort(h: Here, t: Slot) -> Turn
    ensures { result ≡ receives Message.Abort h t }
{
    let p = received(Message::Abort, t, h.place);
    let place = woken(Place {
        queue: sets::without(p.queue, t.index()),
        ..p
    });
    quiet(Here {
        place,
        ..with_status(h, t, ABORTED)
    })
}

// What the scan c leaves.
fn scan_leaves(h: Here, others: u32, c: Scan) -> Turn
    ensures { result ≡ scan_turn h others c }
{
    let place = Place {
        queue: c.waiting,
        remove: false,
        ..h.place
    };
    Turn {
        sent: sets::count(c.aborts) * sets::count(others) + sets::count(c.readies),
        here: Here {
            row: c.row,
            place,
            ..h
        },
        message: Message::Abort,
        about: c.aborts,
        readies: c.readies,
    }
}

// The message is taken, and nothing else changes: t has been aborted.
fn discard(h: Here, t: Slot, m: Message) -> Turn
    ensures { result ≡ discards m h t }
{
    let place = received(m, t, h.place);
    quiet(Here { place, ..h })
}

// The message about t is received.
fn receive(m: Message, h: Here, t: Slot) -> Turn
    ensures { result ≡ receives m h t }
{
    match m {
        Message::Remote => receive_remote(h, t),
        Message::Ready(from) => receive_ready(h, t, from),
        Message::Commit => receive_commit(h, t),
        Message::Abort => receive_abort(h, t),
    }
}

// What the action does at site i to transaction t, where `scan` is the scan of the site as it ends.
// That versions are few stays a clause of those that note one: a type with it would owe its proof wherever a place changes.
pub(crate) fn effect(a: Action, h: Here, others: u32, scan: Scan, i: usize, t: Slot) -> Turn
    requires { few_versions h.place }
    ensures { result ≡ turn_by a h others scan i t }
{
    match a {
        Action::Create => quiet(with_status(h, t, ACTIVE)),
        Action::BeginOperation { reads, writes } => begin_operation(h, t, reads, writes),
        Action::EndOperation => end_operation(h, i, t),
        Action::BeginCommit => begin_commit(h, others, t),
        Action::EndCommit => end_commit(h, others, t),
        Action::LocalAbort => local_abort(h, t),
        Action::Receive(m) => receive(m, h, t),
        Action::ExecuteRemote => scan_leaves(h, others, scan),
        Action::Discard(m) => discard(h, t, m),
    }
}
