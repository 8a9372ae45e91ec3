// The printer: the lines of a report, one after the other. What has no room is left out, and no report is so long.
ghost use Rattle.std.specs.Prelude.{◌≡◌, ◌≤◌, [], ◌∷◌, take};
ghost use Rattle.protocol.specs.State.{max_sites};
ghost use Rattle.protocol.specs.Refusals.{number_of};
ghost use Rattle.text.specs.Decimal.{digits};
ghost use Rattle.text.specs.Written.{bytes};
ghost use Rattle.scenario.specs.Put.{printed, site_of, end_lines};
ghost use Rattle.scenario.specs.Report.{line_of, commas_of, list_of, answer_lines, site_lines};

use itoa::Buffer;
use protocol::{Place, Refusal, Row, State};

// Lent bytes, and the place in them after what has been printed. They are lent, as a printer that owns its bytes takes a sixth
// longer for short texts.
#[derive(Drop)]
pub(crate) struct Printer<'a> {
    out: &'a mut [u8],
    at: usize,
}

impl<'a> Printer<'a> {
    // Nothing is printed yet.
    pub(crate) fn new(out: &'a mut [u8]) -> Printer<'a>
        ensures { result ≡ record { out = out.entry; at = 0 } }
    {
        Printer { out, at: 0 }
    }

    // How many bytes have been printed.
    pub(crate) fn length(&self) -> usize
        ensures { result ≡ self.now.at }
    {
        self.at
    }

    // One byte. The place is read once: after a store into the lent bytes it would have to be read again.
    #[inline(always)]
    fn byte(&mut self, b: u8)
        ensures { self.new ≡ printed self.old (b ∷ []) }
    {
        let at = self.at;
        if at < self.out.len() {
            self.out[at] = b;
            self.at = at + 1;
        }
    }

    // The bytes of s, one by one. They are few, so a call to copy them takes longer, and for such a call the library for C
    // programs would need memmove besides memcpy and memset.
    fn bytes(&mut self, s: &[u8])
        ensures { self.new ≡ printed self.old s.now }
    {
        for b in s {
            self.byte(*b);
        }
    }

    // A key. Where all of it and a byte more have a place it is copied at once. It is inlined, as are the lines that begin with
    // one, so that its length is known and the copy is a few stores in place of a call.
    #[inline(always)]
    fn key(&mut self, key: &[u8])
        ensures { self.new ≡ printed self.old key.now }
    {
        let at = self.at;
        if at < self.out.len().saturating_sub(key.len()) {
            self.out[at..at + key.len()].copy_from_slice(key);
            self.at = at + key.len();
        } else {
            self.bytes(key);
        }
    }

    // The decimal of n, as the library writes it.
    fn long_number(&mut self, n: u32)
        ensures { self.new ≡ printed self.old (digits n) }
    {
        let mut text = Buffer::new();
        self.bytes(text.format(n).as_bytes());
    }

    // The decimal of n. Most are a digit alone, which is stored at once: the library takes several times the instructions for
    // it.
    #[inline(always)]
    fn number(&mut self, n: u32)
        ensures { self.new ≡ printed self.old (digits n) }
    {
        if n < 10 {
            self.byte(b'0' + n as u8);
        } else {
            self.long_number(n);
        }
    }

    // A line that is a key and a decimal.
    #[inline(always)]
    pub(crate) fn line(&mut self, key: &[u8], n: u32)
        ensures { self.new ≡ printed self.old (line_of key.now n) }
    {
        self.key(key);
        self.number(n);
        self.byte(b'\n');
    }

    // The line of a refused setup.
    #[tactic(auto, unfolding(text::specs::Written::bytes))]
    pub(crate) fn refused_setup(&mut self, refusal: Refusal)
        ensures { self.new ≡ printed self.old (line_of (bytes "setup=") (number_of refusal)) }
    {
        self.line(b"setup=", u32::from(u8::from(refusal)));
    }

    // A line for each answer.
    fn answers(&mut self, l: &[u8])
        ensures { self.new ≡ printed self.old (answer_lines l.now) }
    {
        for a in l {
            self.line(b"answer=", u32::from(*a));
        }
    }

    // Decimals with commas between them.
    fn commas(&mut self, l: &[u8])
        ensures { self.new ≡ printed self.old (commas_of l.now) }
    {
        let Some((first, others)) = l.split_first() else {
            return;
        };
        self.number(u32::from(*first));
        for n in others {
            self.byte(b',');
            self.number(u32::from(*n));
        }
    }

    // A line that is a key and the first n elements of l.
    #[inline(always)]
    fn list(&mut self, key: &[u8], l: &[u8], n: u32)
        ensures { self.new ≡ printed self.old (list_of key.now (take n l.now)) }
    {
        self.key(key);
        self.commas(&l[..(n as usize).min(l.len())]);
        self.byte(b'\n');
    }

    // The two lines of a site: the statuses of its first `count` transactions and its log.
    fn site(&mut self, count: u32, row: &Row, place: &Place)
        ensures { self.new ≡ printed self.old (site_of count row.now place.now) }
    {
        self.list(b"status=", &row.status, count);
        self.list(b"log=", &place.log.entries, place.log.length);
    }

    // The lines of all sites.
    fn sites(&mut self, s: &State)
        requires { s.now.sites ≤ max_sites }
        ensures { self.new ≡ printed self.old (site_lines s.now.sites 0 s.now) }
    {
        let n = s.sites as usize;
        for (row, place) in s.rows[..n].iter().zip(&s.places[..n]) {
            self.site(s.count, row, place);
        }
    }

    // What a run reports: the lines of its answers and of the sites of the state s that it ends in, and how many messages
    // were sent.
    pub(crate) fn run(&mut self, l: &[u8], s: &State, sent: u32)
        requires { s.now.sites ≤ max_sites }
        ensures { self.new ≡ printed self.old (end_lines l.now s.now sent) }
    {
        self.answers(l);
        self.sites(s);
        self.line(b"messages=", sent);
    }
}
