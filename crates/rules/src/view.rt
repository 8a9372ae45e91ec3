// What an event that asks the table reads of it at one site.
ghost use Rattle.std.specs.Prelude.{◌≤◌};

use protocol::Txn;

// The table of transactions, of which the first `count` are in use, as seen from a site. Memory is fixed, so the count
// stands beside it.
#[derive(Clone, Copy)]
pub(crate) struct View<'a> {
    pub txns: &'a [Txn; 32],
    pub count: usize,
    pub site: usize,
    ghost fits: { count ≤ 32 },
}
