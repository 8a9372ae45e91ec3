// Who outranks whom, and who of a queue is taken first.
ghost use Rattle.std.specs.Prelude.{◌≡◌, ◌<◌};
ghost use Rattle.std.specs.Option.{unwrap_or, IfSome};
ghost use Rattle.protocol.specs.Order.{outranks, highest};

use protocol::Txn;

// Does x outrank y?
#[tactic(auto, unfolding(protocol::specs::Order::outranks))]
pub(crate) fn outranks(x: &Txn, y: &Txn) -> bool
    ensures { result ≡ outranks x.now y.now }
{
    y.priority < x.priority
}

// The highest of the queue q, if there is one. The definition says 32 where there is none.
pub(crate) fn highest(xs: &[Txn; 32], q: u32) -> Option<usize>
    ensures is { unwrap_or result 32 ≡ highest xs.now q }
    ensures below { IfSome result (λ t. t < 32) }
{
    let mut best = None;
    for u in 0..32 {
        if sets::has(q, u) && best.is_none_or(|k| outranks(&xs[u], &xs[k])) {
            best = Some(u);
        }
    }
    best
}
