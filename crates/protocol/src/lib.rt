// What document 01 and Figure 2 speak of, as types by value. The definitions over these types stand in specs/, the code
// that does what they say in the crate rules; here runs only what reads an event of numbers and a refusal as one.
#![tactic(auto)]

ghost use Rattle.std.specs.Prelude.{◌≡◌};
ghost use Rattle.protocol.specs.Refusals.{number_of};
ghost use Rattle.protocol.specs.Run.{event_in};

// How many sites a state has room for: the most that a setup may ask for. The definitions call it max_sites.
pub const SITES: usize = 8;

// The statuses of a transaction at a site. They are numbers and no enum, as a state with any other byte in a row is one
// that a caller may hand over and that is refused as out of range.
pub const IDLE: u8 = 0;

pub const START: u8 = 1;

pub const ACTIVE: u8 = 2;

pub const BLOCKED: u8 = 3;

pub const PRE_COMMIT: u8 = 4;

pub const COMMITTED: u8 = 5;

pub const ABORTED: u8 = 6;

// Why an event, a setup or a run is refused, in the order of document 01's table of answer numbers. What a text shows of
// it is the number.
#[derive(Clone, Copy, Debug, PartialEq, Eq)]
pub enum Refusal {
    OutOfRange = 1,
    NoAction = 2,
    NoSite = 3,
    NoTransaction = 4,
    IllFilled = 5,
    WrongHome = 6,
    WrongStatus = 7,
    WrongMissing = 8,
    NoMessage = 9,
    LockClash = 10,
    NoScan = 11,
    WrongSites = 21,
    WrongCount = 22,
    NoHome = 23,
    EqualPriorities = 25,
    TooManyEvents = 31,
    NoRoom = 32,
}

impl From<Refusal> for u8 {
    ghost from_gives = { λ r n. n ≡ number_of r };

    // Its number in the table.
    fn from(r: Refusal) -> u8 {
        r as u8
    }
}

// One entry of the lent table of transactions: home site and priority.
#[derive(Clone, Copy)]
pub struct Entry {
    pub home: u32,
    pub priority: u32,
}

// The statuses at one site, one for each transaction.
#[derive(Clone, Copy)]
pub struct Row {
    pub status: [u8; 32],
}

// A commit log: the transactions that have committed at a site, in that order. Entries from `length` on mean nothing. The
// length is a number beside them, as memory is fixed and a log that is too long is refused as out of range.
#[derive(Clone, Copy)]
pub struct Log {
    pub length: u32,
    pub entries: [u8; 32],
}

// The messages on their way to one site. Remote, commit and abort are sets of the transactions that a message is about;
// ready is, for each transaction, the set of the sites that sent one.
#[derive(Clone, Copy)]
pub struct Channel {
    pub remote: u32,
    pub ready: [u32; 32],
    pub commit: u32,
    pub abort: u32,
}

// What belongs to one site besides its statuses. The version of an object is 0 at first, and t + 1 once transaction t
// has committed a write of it.
#[derive(Clone, Copy)]
pub struct Place {
    pub queue: u32,
    pub remove: bool,
    pub log: Log,
    pub versions: [u8; 32],
    pub channel: Channel,
}

// What belongs to one transaction besides its statuses. Reads and writes are sets of objects, missing is the set of the
// sites whose ready is missing. Of an object, noted is 0 where no version was noted, and v + 1 where version v was: a byte an
// object, of which a caller may hand over any.
#[derive(Clone, Copy)]
pub struct Txn {
    pub home: u32,
    pub priority: u32,
    pub reads: u32,
    pub writes: u32,
    pub pendingreads: u32,
    pub pendingwrites: u32,
    pub missing: u32,
    pub noted: [u8; 32],
}

// The whole state. `count` is the number of transactions. Rows, places and transactions beyond the counts mean nothing.
// Document 01 asks for the rows as an array by value, and memory is fixed.
#[derive(Clone, Copy)]
pub struct State {
    pub sites: u32,
    pub count: u32,
    pub rows: [Row; SITES],
    pub places: [Place; SITES],
    pub txns: [Txn; 32],
}

// What a setup, an event or a run gives: what it did, or why it is refused, and the state that it leaves. A setup that is
// done says nothing more, an event or a run how many messages were sent.
#[derive(Clone, Copy)]
pub struct Answered<T> {
    pub outcome: Result<T, Refusal>,
    pub state: State,
}

// An event, as the caller fills it: any numbers, which the answer tells from well filled ones.
#[derive(Clone, Copy)]
pub struct Event {
    pub action: u32,
    pub site: u32,
    pub txn: u32,
    pub kind: u32,
    pub from: u32,
    pub reads: u32,
    pub writes: u32,
}

impl From<[u32; 7]> for Event {
    ghost from_gives = { λ l e. e ≡ event_in l };

    // The event of its seven fields, in their order.
    fn from(numbers: [u32; 7]) -> Event {
        let [action, site, txn, kind, from, reads, writes] = numbers;
        Event {
            action,
            site,
            txn,
            kind,
            from,
            reads,
            writes,
        }
    }
}

// A message is one of four kinds; a ready carries the site that it came from.
#[derive(Clone, Copy)]
pub enum Message {
    Remote,
    Ready(u32),
    Commit,
    Abort,
}

// What an event asks for, once its fields are known to be well filled: one of the twelve actions of Figure 2, of which
// four receive a message.
#[derive(Clone, Copy)]
pub enum Action {
    Create,
    BeginOperation { reads: u32, writes: u32 },
    EndOperation,
    BeginCommit,
    EndCommit,
    LocalAbort,
    Receive(Message),
    ExecuteRemote,
    Discard(Message),
}

// What a scan carries from one queued transaction to the next: the rest of the queue, the statuses at the site, those
// that wait, those about which abort goes to all other sites, and those about which ready goes to their home.
#[derive(Clone, Copy)]
pub struct Scan {
    pub rest: u32,
    pub row: Row,
    pub waiting: u32,
    pub aborts: u32,
    pub readies: u32,
}

// What an action that is enabled leaves: the state, and how many messages it sent.
#[derive(Clone, Copy)]
pub struct Done {
    pub state: State,
    pub sent: u32,
}
