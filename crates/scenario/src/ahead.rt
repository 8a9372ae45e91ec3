// What stands ahead in a text, found in one pass over its bytes. That nothing was found tells nothing: the reader then takes
// the line by its parts.
ghost use Rattle.std.specs.Prelude.{◌≡◌, IfSome};
ghost use Rattle.scenario.specs.Front.{NumberAt, FieldsAt};

// What was found in a text, and the place after it.
#[derive(Clone, Copy)]
pub(crate) struct Ahead<T> {
    pub next: usize,
    pub value: T,
}

impl<T: Copy> Ahead<T> {
    // The same place, with another value.
    pub fn with<U>(self, value: U) -> Ahead<U>
        ensures { (result.next ≡ self.next) × (result.value ≡ value) }
    {
        Ahead {
            next: self.next,
            value,
        }
    }
}

// The decimal that stands at `at` with the byte `end` after it. One pass tells all but why there is none.
pub(crate) fn number_at(s: &[u8], at: usize, end: u8) -> Option<Ahead<u32>>
    ensures { IfSome result (λ f. NumberAt s.now at end f.value f.next) }
{
    let mut v = text::with_digit(0, *s.get(at)?)?;
    for i in at + 1..s.len() {
        if s[i] == end {
            return Some(Ahead {
                next: i + 1,
                value: v,
            });
        }
        if v == 0 {
            return None;
        }
        v = text::with_digit(v, s[i])?;
    }
    None
}

// The values of seven decimals that stand at `at` with commas between them and a line feed after them.
pub(crate) fn seven_at(s: &[u8], at: usize) -> Option<Ahead<[u32; 7]>>
    ensures { IfSome result (λ f. FieldsAt s.now at f.value f.next) }
{
    let mut values = [0; 7];
    let mut next = at;
    for k in 0..6 {
        let f = number_at(s, next, b',')?;
        values[k] = f.value;
        next = f.next;
    }
    let f = number_at(s, next, b'\n')?;
    values[6] = f.value;
    Some(Ahead {
        next: f.next,
        value: values,
    })
}
