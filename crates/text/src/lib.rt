// The call's texts, read from the front, field by field: a key, a value and LF (model's Fields and Numbers).
#![tactic(auto)]

ghost use Rattle.std.specs.Prelude.{◌≡◌, ◌==◌, option_copied, position};
ghost use Rattle.model.specs.Fields.{take_value, take_field};
ghost use Rattle.model.specs.Numbers.{read_up_to};
ghost use Rattle.text.specs.Reads.{ReadsOrKeeps};
ghost use Rattle.text.specs.Digits.{digit_of, digits_up_to};

// A text that is read from its front: what is left of it. One that gave nothing is as it was.
#[derive(Clone, Copy)]
pub struct Reader<'a> {
    pub rest: &'a [u8],
}

impl<'a> Reader<'a> {
    // The value behind the key.
    pub fn value(&mut self, key: &[u8]) -> Option<&'a [u8]>
        ensures { ReadsOrKeeps (take_value key.now) self.old.rest.now self.new.rest.now (option_copied result) }
    {
        let line = self.rest.strip_prefix(key)?;
        let end = line_end(line)?;
        self.rest = &line[end + 1..];
        Some(&line[..end])
    }

    // The number behind the key, if it is at most `most`.
    pub fn number(&mut self, key: &[u8], most: u64) -> Option<u64>
        ensures { ReadsOrKeeps (take_field key.now (read_up_to most)) self.old.rest.now self.new.rest.now result }
    {
        let mut ahead = *self;
        let n = natural(ahead.value(key)?, most)?;
        *self = ahead;
        Some(n)
    }
}

// Where the first line's LF stands.
fn line_end(t: &[u8]) -> Option<usize>
    ensures { result ≡ position (λ b. b == 10) t.now }
{
    t.iter().position(|b| *b == b'\n')
}

// The value of a decimal digit.
fn digit(b: u8) -> Option<u64>
    ensures { result ≡ digit_of b }
{
    (b as char).to_digit(10).map(u64::from)
}

// The number of digits, leading zeros among them. It stops once that is above `most`, so that no number of digits is too long.
fn digits(t: &[u8], most: u64) -> Option<u64>
    ensures { result ≡ digits_up_to most 0 t.now }
{
    let mut n: u64 = 0;
    for b in t {
        n = n.checked_mul(10)?.checked_add(digit(*b)?)?;
        if most < n {
            return None;
        }
    }
    Some(n)
}

// The number that t is, if it is at most `most`.
pub fn natural(t: &[u8], most: u64) -> Option<u64>
    ensures { result ≡ read_up_to most t.now }
{
    match t {
        [] => None,
        [b'0', _, ..] => None,
        _ => digits(t, most),
    }
}
