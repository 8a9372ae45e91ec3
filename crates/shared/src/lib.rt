// What the two programs share: an input is read, and a text has its report.
#![tactic(auto)]

ghost use Rattle.std.specs.Prelude.{◌≡◌, ◌≤◌, length, IfSome};
ghost use Rattle.std.specs.Io.{StartsWith};
ghost use Rattle.scenario.specs.Report.{report_of};

use scenario::REPORT_ROOM;
use std::io::Read;

// Reads until space is full or the input ends, and answers what came. How much comes is known after each read. A read that
// fails ends the input.
pub fn read_full<'a, R: Read + Drop>(mut input: R, space: &'a mut [u8]) -> &'a [u8]
    ensures within { length result.now ≤ length space.old }
    ensures prefix { IfSome (R.remaining input) (λ xs. StartsWith xs result.now) }
{
    let mut done = 0;
    while let Ok(n @ 1..) = input.read(&mut space[done..]) {
        done += n;
    }
    &space[..done]
}

// The report of a text, in lent bytes that every report fits, so none is refused.
pub fn report<'a>(text: &[u8], out: &'a mut [u8; REPORT_ROOM]) -> &'a [u8]
    ensures { result.now ≡ report_of text.now }
{
    let out: &mut [u8] = out;
    let n = scenario::report(text, out).unwrap_or(0);
    &out[..n]
}
