// The library for programs in other languages. A lent list passes as a pointer and a length.
#![tactic(auto)]

ghost use Rattle.std.specs.Prelude.{◌≡◌, length};
ghost use Rattle.std.specs.Result.{result_unwrap_or};
ghost use Rattle.protocol.specs.Run.{events_of, answers_after};
ghost use Rattle.scenario.specs.Format.{read_into};
ghost use Rattle.scenario.specs.Report.{report_of, reported, reported_in};
ghost use Rattle.exports.specs.Exported.{fault_line, begun_with, sent_in};

use scenario::reader::{entries_of, read, whole};

// The report of a text into lent bytes: its length, or 0 where they are too few and stay as they came. No report is
// empty.
#[unsafe(no_mangle)]
pub extern "C" fn bench_report(text: &[u8], out: &mut [u8]) -> usize
    ensures { (result ≡ result_unwrap_or (reported (report_of text.now) (length out.old)) 0) × (out.new ≡ reported_in (report_of text.now) out.old) }
{
    scenario::report(text, out).unwrap_or(0)
}

// Reads a text into lent lists, as far as they have room: two numbers a transaction and seven an event. The number of the
// first line that is not of the form or absent, or 0 where there is none.
#[unsafe(no_mangle)]
pub extern "C" fn bench_read(text: &[u8], homes: &mut [u32], numbers: &mut [u32]) -> u64
    ensures { (result ≡ fault_line (read_into homes.old numbers.old text.now)) × (homes.new ≡ (read_into homes.old numbers.old text.now).homes) × (numbers.new ≡ (read_into homes.old numbers.old text.now).numbers) }
{
    let m = read(text, homes, numbers);
    if whole(m) { 0 } else { m.line }
}

// Sets up the table, two numbers a transaction, runs the events, seven numbers each, and writes one answer an event: how
// many messages were sent, or 4294967295 where the setup or the run is refused, which writes nothing.
#[unsafe(no_mangle)]
pub extern "C" fn bench_run(sites: u32, table: &[u32], events: &[u32], answers: &mut [u8]) -> u32
    ensures { (result ≡ sent_in (begun_with sites table.now) (events_of events.now) (length answers.old)) × (answers.new ≡ answers_after (begun_with sites table.now) (events_of events.now) answers.old) }
{
    let b = rules::setup_of(sites, table.len() / 2, entries_of(table));
    rules::run(b.state, events, answers)
        .outcome
        .unwrap_or(u32::MAX)
}
