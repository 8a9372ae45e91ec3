// The stored scenarios through the library. The file args names them; NAME.scenario is a text and NAME.report what must
// come back, to the byte. The file stdout has what this program must print: every scenario the same.
#![tactic(auto)]

ghost use Rattle.std.specs.Prelude.{◌≤◌, length, IfSome};

use arrayvec::ArrayString;
use scenario::{MAX_TEXT, REPORT_ROOM};
use shared::{read_full, report};
use std::env::FillError;
use std::fmt::Write;
use std::fs::File;
use std::io::Read;
use std::rt::{Env, Files};
use std::{io, str};

// Opens the file of a scenario with this ending, and answers it, or None where that fails.
fn open<R: Files>(rt: &R, name: &str, end: &str) -> Option<R::File> {
    let mut path = ArrayString::<300>::new();
    write!(path, "{name}{end}").ok()?;
    File::open(rt, path.as_str()).ok()
}

// Whether the report of the scenario in the one file is what the other holds. One byte more is read than a text or a report
// may have, so that a longer file is noticed. It is not inlined, so that its buffers are not cleared where a file is missing.
#[inline(never)]
fn agree<F: Read + Drop>(scenario: F, stored: F) -> bool {
    let mut text = [0u8; MAX_TEXT + 1];
    let mut space = [0u8; REPORT_ROOM + 1];
    let mut out = [0u8; REPORT_ROOM];
    let text = read_full(scenario, &mut text);
    let stored = read_full(stored, &mut space);
    report(text, &mut out) == stored
}

// Whether the report of the scenario is the stored one, or None where a file is missing. Both are opened before either is
// read. A path is text, so a name that is not UTF-8 has no file.
fn same(rt: &impl Files, name: &[u8]) -> Option<bool> {
    let name = str::from_utf8(name).ok()?;
    let scenario = open(rt, name, ".scenario");
    let stored = open(rt, name, ".report");
    let (scenario, stored) = scenario.zip(stored)?;
    Some(agree(scenario, stored))
}

// Writes to standard output. A write that fails is passed over: what is missing shows in what came out.
fn say(rt: &impl Print, s: &[u8]) {
    let _ = rt.write_all(s);
}

// Says of one scenario whether its report is the stored one, and answers that.
fn tell(rt: &(impl Files + Print), name: &[u8]) -> bool {
    say(rt, name);
    let same = same(rt, name).unwrap_or(false);
    say(rt, if same { b" same\n" } else { b" differs\n" });
    same
}

// Puts the argument into space and answers it, empty where it is longer than space, as there is no such scenario, or None
// where there is none.
fn name_at<'a>(rt: &impl Env, i: usize, space: &'a mut [u8]) -> Option<&'a [u8]>
    ensures { IfSome result (λ s. length s.now ≤ length space.old) }
{
    match rt.arg(i, space) {
        Ok(n) => Some(&space[..n]),
        Err(FillError::TooLong) => Some(b""),
        Err(FillError::NotPresent) => None,
    }
}

// Tells of every scenario that is named, by the number of its argument, and how many there were.
fn main(rt: HostRuntime) -> io::Result<()> {
    let mut differ: u64 = 0;
    let mut count: u64 = 0;
    for i in 1..usize::MAX {
        let mut space = [0u8; 256];
        let Some(name) = name_at(&rt, i, &mut space) else {
            break;
        };
        differ += u64::from(!tell(&rt, name));
        count += 1;
    }
    println!(rt; "{count} scenarios, {differ} differ")
}
