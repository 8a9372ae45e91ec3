// The reader: a machine over lines. What it keeps goes into lent lists, so that a line costs what its bytes cost. A line
// of the form is read in one pass; any other is read again by its parts, which tell that it is at fault.
ghost use Rattle.std.specs.Prelude.{◌≡◌, None, ◌+◌, ◌*◌, ◌<◌, ◌≤◌, min, length, drop, slice_index, slice_set};
ghost use Rattle.std.specs.Fn.{FnReturnsAt};
ghost use Rattle.text.specs.Line.{before, value_of as value_in};
ghost use Rattle.scenario.specs.Format.{begin, faulted, moved, after, sites_line, count_line, home_line, priority_line, events_line, event_line, event_of, kept, kept_all, read_into, whole, entries_of};
ghost use Rattle.scenario.specs.Ahead.{Ahead as IsAhead, AnyAhead, LineSays, LineAhead};

use crate::ahead::{Ahead, number_at, seven_at};
use crate::{Reading, Want};
use protocol::Entry;

// Before the first line.
#[tactic(auto, unfolding(crate::specs::Format::begin))]
fn begin() -> Reading
    ensures { result ≡ begin }
{
    Reading {
        want: Want::Sites,
        line: 1,
        done: 0,
        sites: 0,
        count: 0,
        events: 0,
    }
}

// The wanted line is at fault.
#[tactic(auto, unfolding(crate::specs::Format::faulted))]
fn faulted(m: Reading) -> Reading
    ensures { result ≡ faulted m }
{
    Reading {
        want: Want::Fault,
        ..m
    }
}

// What is wanted after `done` of n lines of a kind.
fn after(done: u64, n: u32, more: Want, next: Want) -> Want
    ensures { result ≡ after done n more next }
{
    if done < u64::from(n) { more } else { next }
}

// The seven numbers of an event's line.
#[tactic(auto, using(text::specs::Laws::prefix_is), unfolding(crate::specs::Format::event_of, text::specs::Written::bytes))]
fn event_of(line: &[u8]) -> Option<[u32; 7]>
    ensures { result ≡ event_of line.now }
{
    text::seven(line.strip_prefix(b"event=")?)
}

// Stores x at place k, where the list has that place. With `get_mut` the proof did not close: no clause says that the list
// stays where there is no such place.
fn put(list: &mut [u32], k: usize, x: u32)
    ensures { list.new ≡ slice_set list.old k x }
{
    if k < list.len() {
        list[k] = x;
    }
}

// Keeps the home of transaction `done`, which is the first of its two places, or its priority, which is the second. The
// places of a transaction whose number is not below the length are past the end.
#[tactic(auto, unfolding(crate::specs::Format::kept))]
fn keep(homes: &mut [u32], done: u64, k: u64, n: Option<u32>)
    requires { k < 2 }
    ensures { homes.new ≡ kept homes.old (2 * done + k) n }
{
    let Some(x) = n else {
        return;
    };
    if done < homes.len() as u64 {
        put(homes, (2 * done + k) as usize, x);
    }
}

// Keeps the seven numbers of event `done`, whose places are past the end where `done` is not below the length.
#[tactic(auto, unfolding(crate::specs::Format::kept_all))]
fn keep_event(numbers: &mut [u32], done: u64, f: Option<[u32; 7]>)
    ensures { numbers.new ≡ kept_all numbers.old (7 * done) f }
{
    let Some(v) = f else {
        return;
    };
    if done < numbers.len() as u64 {
        let at = 7 * done as usize;
        for (k, x) in v.iter().enumerate() {
            put(numbers, at + k, *x);
        }
    }
}

// A line that is looked at: how far the text was read before it, the text, and the place where the line begins.
#[derive(Clone, Copy)]
struct Cursor<'a> {
    m: Reading,
    text: &'a [u8],
    at: usize,
    ghost inside: { at < length text.now },
    ghost line: { m.line < 18446744073709551615 },
    ghost done: { m.done < 18446744073709551615 },
}

impl<'a> Cursor<'a> {
    // The wanted line is there, and another is wanted, of whose kind `done` have been.
    #[tactic(auto, unfolding(crate::specs::Format::moved))]
    fn moved(&self, want: Want, done: u64) -> Reading
        ensures { result ≡ moved self.now.m want done }
    {
        Reading {
            want,
            line: self.m.line + 1,
            done,
            ..self.m
        }
    }

    // One more of n lines of a kind is there: more of them are wanted, or what comes next.
    #[tactic(auto, unfolding(crate::specs::Format::moved))]
    fn one_more(&self, n: u32, more: Want, next: Want) -> Reading
        ensures { result ≡ moved self.now.m (after (self.now.m.done + 1) n more next) (self.now.m.done + 1) }
    {
        let done = self.m.done + 1;
        self.moved(after(done, n, more, next), done)
    }

    // The number of sites.
    #[tactic(auto, unfolding(crate::specs::Format::sites_line, crate::specs::Format::moved))]
    fn sites_line(&self, n: Option<u32>) -> Reading
        ensures { result ≡ sites_line self.now.m n }
    {
        let Some(sites) = n else {
            return faulted(self.m);
        };
        Reading {
            sites,
            ..self.moved(Want::Count, 0)
        }
    }

    // The number of transactions. Each kind of line has a definition of its own, and so a method.
    #[tactic(auto, unfolding(crate::specs::Format::count_line, crate::specs::Format::moved))]
    fn count_line(&self, n: Option<u32>) -> Reading
        ensures { result ≡ count_line self.now.m n }
    {
        let Some(count) = n else {
            return faulted(self.m);
        };
        Reading {
            count,
            ..self.moved(after(0, count, Want::Home, Want::Events), 0)
        }
    }

    // The home of a transaction.
    #[tactic(auto, unfolding(crate::specs::Format::home_line))]
    fn home_line(&self, n: Option<u32>) -> Reading
        ensures { result ≡ home_line self.now.m n }
    {
        match n {
            Some(_) => self.moved(Want::Priority, self.m.done),
            None => faulted(self.m),
        }
    }

    // The priority of a transaction, after which the next has its home, or the events follow.
    #[tactic(auto, unfolding(crate::specs::Format::priority_line))]
    fn priority_line(&self, n: Option<u32>) -> Reading
        ensures { result ≡ priority_line self.now.m n }
    {
        match n {
            Some(_) => self.one_more(self.m.count, Want::Home, Want::Events),
            None => faulted(self.m),
        }
    }

    // The number of events.
    #[tactic(auto, unfolding(crate::specs::Format::events_line, crate::specs::Format::moved))]
    fn events_line(&self, n: Option<u32>) -> Reading
        ensures { result ≡ events_line self.now.m n }
    {
        let Some(events) = n else {
            return faulted(self.m);
        };
        Reading {
            events,
            ..self.moved(after(0, events, Want::Event, Want::Nothing), 0)
        }
    }

    // An event.
    #[tactic(auto, unfolding(crate::specs::Format::event_line))]
    fn event_line(&self, f: Option<[u32; 7]>) -> Reading
        ensures { result ≡ event_line self.now.m f }
    {
        match f {
            Some(_) => self.one_more(self.m.events, Want::Event, Want::Nothing),
            None => faulted(self.m),
        }
    }

    // Where the line ends: before its line feed, or where the text ends.
    fn line_feed(&self) -> usize
        ensures { (result ≡ min self.now.at (length self.now.text.now) + before 10 (drop self.now.at self.now.text.now)) × (result ≤ length self.now.text.now) }
    {
        text::upto(self.text, self.at, b'\n')
    }

    // The line as it is read, by its parts, and the place after it. What no line feed ends says nothing.
    fn by_parts<T, F: Fn(&[u8]) -> Option<T>>(&self, read: F) -> Ahead<Option<T>>
        requires { F.IsAlwaysCallable read }
        ensures { IsAhead self.now.text.now self.now.at result.next (λ l. FnReturnsAt F.Fn read l result.value) (result.value ≡ None) }
    {
        let e = self.line_feed();
        if e == self.text.len() {
            return Ahead {
                next: e,
                value: None,
            };
        }
        Ahead {
            next: e + 1,
            value: read(&self.text[self.at..e]),
        }
    }

    // Any line.
    fn any_line(&self) -> Ahead<Option<()>>
        ensures { AnyAhead self.now.text.now self.now.at result.next }
    {
        self.by_parts(|_| Some(()))
    }

    // The value of the line. It is inlined, so that the cursor stays in registers: a call costs a tenth of a short text's time.
    #[inline(always)]
    fn value_of(&self, key: &[u8]) -> Ahead<Option<u32>>
        requires { before 10 key.now ≡ length key.now }
        ensures { LineSays self.now.text.now self.now.at (value_in key.now) result.value result.next }
    {
        if text::starts(&self.text[self.at..], key) {
            if let Some(f) = number_at(self.text, self.at + key.len(), b'\n') {
                return f.with(Some(f.value));
            }
        }
        self.by_parts(|line| text::value(line, key))
    }

    // The event of the line. One function for this and `value_of` would need a contract over two closures, which is no plainer.
    fn event_at(&self) -> Ahead<Option<[u32; 7]>>
        ensures { LineSays self.now.text.now self.now.at event_of result.value result.next }
    {
        if text::starts(&self.text[self.at..], b"event=") {
            if let Some(f) = seven_at(self.text, self.at + 6) {
                return f.with(Some(f.value));
            }
        }
        self.by_parts(event_of)
    }

    // Where the line takes the reading to, and the place after the line.
    #[tactic(auto, unfolding(text::specs::Line::before))]
    fn next_line(&self, homes: &mut [u32], numbers: &mut [u32]) -> Ahead<Reading>
        ensures { LineAhead self.now.text.now self.now.at self.now.m homes.old numbers.old result.value homes.new numbers.new result.next }
    {
        let m = self.m;
        match m.want {
            Want::Sites => {
                let line = self.value_of(b"sites=");
                line.with(self.sites_line(line.value))
            }
            Want::Count => {
                let line = self.value_of(b"transactions=");
                line.with(self.count_line(line.value))
            }
            Want::Home => {
                let line = self.value_of(b"master=");
                keep(homes, m.done, 0, line.value);
                line.with(self.home_line(line.value))
            }
            Want::Priority => {
                let line = self.value_of(b"priority=");
                keep(homes, m.done, 1, line.value);
                line.with(self.priority_line(line.value))
            }
            Want::Events => {
                let line = self.value_of(b"events=");
                line.with(self.events_line(line.value))
            }
            Want::Event => {
                let line = self.event_at();
                keep_event(numbers, m.done, line.value);
                line.with(self.event_line(line.value))
            }
            Want::Nothing => self.any_line().with(faulted(m)),
            Want::Fault => self.any_line().with(m),
        }
    }
}

// Reads a whole text. What stands after the last line feed is nothing, or a line at fault. Where the next line begins is
// known when the one before it has been read.
pub fn read(text: &[u8], homes: &mut [u32], numbers: &mut [u32]) -> Reading
    ensures { (result ≡ (read_into homes.old numbers.old text.now).reading) × (homes.new ≡ (read_into homes.old numbers.old text.now).homes) × (numbers.new ≡ (read_into homes.old numbers.old text.now).numbers) }
{
    let mut m = begin();
    let mut at = 0;
    while at < text.len() {
        let Ahead { next, value } = Cursor { m, text, at }.next_line(homes, numbers);
        m = value;
        at = next;
    }
    m
}

// All that the text announces was there, and nothing after it.
#[tactic(auto, unfolding(crate::specs::Format::whole))]
pub fn whole(m: Reading) -> bool
    ensures { result ≡ whole m.want }
{
    matches!(m.want, Want::Nothing)
}

// What stands at place k, or 0 where the list has no such place: that of a lent list, as `status_in` of rules is of a row.
fn stored_at(list: &[u32], k: usize) -> u32
    ensures { result ≡ slice_index list.now k }
{
    list.get(k).copied().unwrap_or(0)
}

// The entries for setup: of each transaction the home and the priority that were read.
pub fn entries_of(homes: &[u32]) -> [Entry; 32]
    ensures { result ≡ entries_of homes.now }
{
    std::array::from_fn(|t| Entry {
        home: stored_at(homes, 2 * t),
        priority: stored_at(homes, 2 * t + 1),
    })
}
