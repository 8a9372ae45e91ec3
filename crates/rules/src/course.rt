// The events of a run, one after the other. The state stands in one place: an event reads and writes parts of it there.
ghost use Rattle.std.specs.Prelude.{◌≡◌, true, ◌++◌, ◌/◌, ◌<◌, ◌≤◌, length, drop};
ghost use Rattle.protocol.specs.Range.{in_range};
ghost use Rattle.protocol.specs.Answer.{step};
ghost use Rattle.protocol.specs.Run.{events_of, state_after, sent_by, answers_of};
ghost use Rattle.protocol.specs.Refusals.{stepped, ran};
ghost use Rattle.rules.specs.Turn.{after_turn};

use crate::admitting::{admitted, index};
use crate::channel::posted;
use crate::figure::effect;
use crate::slot::Slot;
use crate::view::View;
use crate::{Here, Turn};
use protocol::{Answered, Event, Refusal, State};

// Puts back what a turn at site i of transaction t leaves there, and posts its messages.
fn leave(s: &mut State, i: usize, t: Slot, d: &Turn)
    requires { i < 8 }
    ensures { s.new ≡ after_turn s.old i t d.now }
{
    s.rows[i] = d.here.row;
    s.places[i] = d.here.place;
    s.txns[t.index()] = d.here.txn;
    if !sets::is_empty(sets::union(d.about, d.readies)) {
        posted(d, i, s.sites, &s.txns, &mut s.places);
    }
}

// Takes one event in a state in range, and says how many messages it sent. A refused event changes nothing. That the state is
// in range stays a clause here and at two more: a type for it would be taken apart at once.
pub(crate) fn take(s: &mut State, e: Event) -> Result<u32, Refusal>
    requires { in_range s.old ≡ true }
    ensures { stepped (record { outcome = result; state = s.new }) ≡ step s.old e }
{
    let i = index(e.site, s.sites);
    let t = Slot::at(index(e.txn, s.count));
    let here = Here {
        row: s.rows[i],
        place: s.places[i],
        txn: s.txns[t.index()],
    };
    let view = View {
        txns: &s.txns,
        count: s.count as usize,
        site: i,
    };
    let told = view.tells(e, t, &here);
    let a = admitted(e, s.sites, s.count, &told, &here, t)?;
    let others = sets::all_but(s.sites as usize, i);
    let d = effect(a, here, others, told.scan, i, t);
    leave(s, i, t, &d);
    Ok(d.sent)
}

// Takes the events, seven numbers each, past refused ones, and writes one answer an event.
pub(crate) fn performed(s: State, events: &[u32], answers: &mut [u8]) -> Answered<u32>
    requires { (in_range s ≡ true) × (length events.now / 7 ≤ 1024) × (length events.now / 7 ≤ length answers.old) }
    ensures { (ran result ≡ record { answer = 0; sent = sent_by s (events_of events.now); state = state_after s (events_of events.now) }) × (answers.new ≡ answers_of s (events_of events.now) ++ drop (length (events_of events.now)) answers.old) }
{
    let (chunks, _) = events.as_chunks::<7>();
    let mut state = s;
    let mut sent = 0;
    for (k, chunk) in chunks.iter().enumerate() {
        answers[k] = match take(&mut state, Event::from(*chunk)) {
            Ok(n) => {
                sent += n;
                0
            }
            Err(refusal) => u8::from(refusal),
        };
    }
    Answered {
        outcome: Ok(sent),
        state,
    }
}
