// The rehearsal: what was read is set up and run, and its report is printed.
ghost use Rattle.std.specs.Prelude.{◌≡◌, ◌*◌, ◌≤◌, true, length};
ghost use Rattle.std.proofs.lemmas.List.Edits.{sets};
ghost use Rattle.protocol.specs.State.{max_events};
ghost use Rattle.protocol.specs.Setup.{setup_of};
ghost use Rattle.protocol.specs.Range.{in_range};
ghost use Rattle.laws.specs.Shape.{Shaped};
ghost use Rattle.scenario.specs.Format.{entries_of};
ghost use Rattle.scenario.specs.Put.{printed};
ghost use Rattle.scenario.specs.Report.{report_room, run_lines, outcome_of, report_of};

use crate::printer::Printer;
use crate::reader::{entries_of, read, whole};
use crate::{HOMES, MAX_TEXT, NUMBERS, Reading};
use protocol::{Refusal, State};

// The most events that are run.
const MAX_EVENTS: u32 = 1024;

// The report of a run from the state s.
fn print_run(p: &mut Printer<'_>, s: State, numbers: &[u32])
    requires { (Shaped s) × (in_range s ≡ true) × (length numbers.now ≤ 7 * max_events) }
    ensures { p.new ≡ printed p.old (run_lines s numbers.now) }
{
    let n = numbers.len() / 7;
    let mut answers = [0u8; MAX_EVENTS as usize];
    let r = rules::run(s, numbers, &mut answers);
    p.run(&answers[..n], &r.state, r.outcome.unwrap_or(0));
}

// The report of a text of the form: a refused setup, too many events, or what its run reports.
fn print_outcome(p: &mut Printer<'_>, m: Reading, homes: &[u32; HOMES], numbers: &[u32; NUMBERS])
    ensures { p.new ≡ printed p.old (outcome_of (setup_of m.sites m.count (entries_of homes.now)) m.events numbers.now) }
{
    let b = rules::setup_of(m.sites, m.count as usize, entries_of(homes));
    match b.outcome {
        Err(refusal) => p.refused_setup(refusal),
        Ok(()) if MAX_EVENTS < m.events => p.refused_setup(Refusal::TooManyEvents),
        Ok(()) => print_run(p, b.state, &numbers[..7 * m.events as usize]),
    }
}

// The report of a text.
fn print_report(p: &mut Printer<'_>, text: &[u8])
    ensures { p.new ≡ printed p.old (report_of text.now) }
{
    if MAX_TEXT < text.len() {
        p.line(b"fault=", 0);
        return;
    }
    let mut homes = [0u32; HOMES];
    let mut numbers = [0u32; NUMBERS];
    let m = read(text, &mut homes, &mut numbers);
    if whole(m) {
        print_outcome(p, m, &homes, &numbers);
    } else {
        p.line(b"fault=", m.line as u32);
    }
}

// The report of a text at the start of bytes that every report fits, and its length.
pub(crate) fn write_report(text: &[u8], out: &mut [u8]) -> usize
    requires { report_room ≤ length out.old }
    ensures within { result ≤ length out.new }
    ensures length { result ≡ length (report_of text.now) }
    ensures bytes { out.new ≡ sets out.old 0 (report_of text.now) }
{
    let mut printer = Printer::new(out);
    print_report(&mut printer, text);
    printer.length()
}
