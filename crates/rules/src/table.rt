// What setup demands of the table of transactions: the counts, the homes and the priorities. The range test asks the same.
ghost use Rattle.std.specs.Prelude.{◌≡◌, not, ◌==◌, length};
ghost use Rattle.std.specs.List.{list_all};
ghost use Rattle.protocol.specs.State.{txn_in};
ghost use Rattle.protocol.specs.Setup.{sites_fine, count_fine, homes_fine, priorities_differ};

use protocol::{SITES, Txn};

// Are there 1 to 8 sites?
#[tactic(auto, unfolding(protocol::specs::Setup::sites_fine))]
pub(crate) fn sites_fine(sites: u32) -> bool
    ensures { result ≡ sites_fine sites }
{
    (1..=SITES as u32).contains(&sites)
}

// Are there 1 to 32 transactions?
#[tactic(auto, unfolding(protocol::specs::Setup::count_fine))]
pub(crate) fn count_fine(n: usize) -> bool
    ensures { result ≡ count_fine n }
{
    (1..=32).contains(&n)
}

// Is the home of each transaction of the table a site?
pub(crate) fn homes_fine(sites: u32, xs: &[Txn]) -> bool
    ensures { result ≡ homes_fine sites (length xs.now) (λ t. (txn_in xs.now t).home) }
{
    xs.iter().all(|x| x.home < sites)
}

// Has none of them the given priority?
fn differs(xs: &[Txn], priority: u32) -> bool
    ensures { result ≡ list_all (λ x. not (x.priority == priority)) xs.now }
{
    xs.iter().all(|x| x.priority != priority)
}

// Do the priorities of the table differ?
pub(crate) fn priorities_differ(xs: &[Txn]) -> bool
    ensures { result ≡ priorities_differ (length xs.now) (λ t. (txn_in xs.now t).priority) }
{
    xs.iter()
        .enumerate()
        .all(|(t, x)| differs(&xs[..t], x.priority))
}
