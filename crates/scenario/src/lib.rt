// The scenario: the text that a user writes and the report that comes back.
#![tactic(auto)]

ghost use Rattle.std.specs.Prelude.{◌≡◌};
ghost use Rattle.scenario.specs.Report.{short_buffer, report_of, Reported};

use crate::rehearsal::write_report;

// Which line is wanted next: the number of sites, the number of transactions, a transaction's home, its priority, the
// number of events, an event, nothing more; or the last line was not of the form.
#[derive(Clone, Copy)]
pub enum Want {
    Sites,
    Count,
    Home,
    Priority,
    Events,
    Event,
    Nothing,
    Fault,
}

// How far a text has been read: which line is wanted, its number, how many of its kind have been, and the numbers of
// sites, transactions and events that the text announces. After a fault `line` is the number of the line at fault. It is no
// Result, as `read` promises the reading of a faulty text too.
#[derive(Clone, Copy)]
pub struct Reading {
    pub want: Want,
    pub line: u64,
    pub done: u64,
    pub sites: u32,
    pub count: u32,
    pub events: u32,
}

// The lent bytes are too few for the report.
#[derive(Clone, Copy, Debug, PartialEq, Eq)]
pub struct ShortBuffer;

// Its number.
impl From<ShortBuffer> for u32 {
    ghost from_gives = { λ e n. n ≡ short_buffer };

    fn from(_: ShortBuffer) -> u32 {
        34
    }
}

// So many bytes are enough for every report.
pub const REPORT_ROOM: usize = 24576;

// The longest text that is read.
pub const MAX_TEXT: usize = 65536;

// What is kept of a text: two numbers for each transaction that a setup takes, and seven for each event of a run, in lists
// of numbers, as C programs lend them to the reader.
pub const HOMES: usize = 64;

pub const NUMBERS: usize = 7168;

pub(crate) mod ahead;
pub(crate) mod printer;
pub mod reader;
pub(crate) mod rehearsal;

// The report of a text by way of bytes of its own, as the lent ones may be too few.
fn report_by_way(text: &[u8], out: &mut [u8]) -> Result<usize, ShortBuffer>
    ensures { Reported (report_of text.now) out.old result out.new }
{
    let mut space = [0u8; REPORT_ROOM];
    let n = write_report(text, &mut space);
    if out.len() < n {
        return Err(ShortBuffer);
    }
    out[..n].copy_from_slice(&space[..n]);
    Ok(n)
}

// The report of a text into lent bytes, whose others stay, and its length. Where they are too few nothing is written.
// Lent bytes that every report fits are written at once.
pub fn report(text: &[u8], out: &mut [u8]) -> Result<usize, ShortBuffer>
    ensures { Reported (report_of text.now) out.old result out.new }
{
    if out.len() < REPORT_ROOM {
        return report_by_way(text, out);
    }
    Ok(write_report(text, out))
}
