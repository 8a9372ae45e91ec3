// The program: a scenario on standard input, its report on standard output.
#![tactic(auto)]

use scenario::{MAX_TEXT, REPORT_ROOM};
use shared::{read_full, report};
use std::io;

// One byte more is read than a text may have, so that a longer input is noticed.
fn main(rt: HostRuntime) -> io::Result<()> {
    let mut space = [0u8; MAX_TEXT + 1];
    let mut out = [0u8; REPORT_ROOM];
    let text = read_full(rt.stdin(), &mut space);
    rt.write_all(report(text, &mut out))
}
