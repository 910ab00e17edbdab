// UTF-8 by RFC 3629: the check that P4 is a text.
ghost use Rattle.std.specs.Prelude.{◌≡◌, ◌<◌, not, position};
ghost use Rattle.std.specs.Char.{is_ascii};
ghost use Rattle.type_info.specs.ByteClass.{ClassOf, StateAfter};
ghost use Rattle.type_info.specs.Utf8.{is_utf8, Checked};

// The class of each byte; specs/ByteClass.antt says which bytes a class has.
static CLASSES: [u8; 256] = [
    0, 0, 0, 0, 0, 0, 0, 0, 0, 0, 0, 0, 0, 0, 0, 0, 0, 0, 0, 0, 0, 0, 0, 0, 0, 0, 0, 0, 0, 0, 0, 0,
    0, 0, 0, 0, 0, 0, 0, 0, 0, 0, 0, 0, 0, 0, 0, 0, 0, 0, 0, 0, 0, 0, 0, 0, 0, 0, 0, 0, 0, 0, 0, 0,
    0, 0, 0, 0, 0, 0, 0, 0, 0, 0, 0, 0, 0, 0, 0, 0, 0, 0, 0, 0, 0, 0, 0, 0, 0, 0, 0, 0, 0, 0, 0, 0,
    0, 0, 0, 0, 0, 0, 0, 0, 0, 0, 0, 0, 0, 0, 0, 0, 0, 0, 0, 0, 0, 0, 0, 0, 0, 0, 0, 0, 0, 0, 0, 0,
    1, 1, 1, 1, 1, 1, 1, 1, 1, 1, 1, 1, 1, 1, 1, 1, 2, 2, 2, 2, 2, 2, 2, 2, 2, 2, 2, 2, 2, 2, 2, 2,
    3, 3, 3, 3, 3, 3, 3, 3, 3, 3, 3, 3, 3, 3, 3, 3, 3, 3, 3, 3, 3, 3, 3, 3, 3, 3, 3, 3, 3, 3, 3, 3,
    11, 11, 4, 4, 4, 4, 4, 4, 4, 4, 4, 4, 4, 4, 4, 4, 4, 4, 4, 4, 4, 4, 4, 4, 4, 4, 4, 4, 4, 4, 4,
    4, 5, 6, 6, 6, 6, 6, 6, 6, 6, 6, 6, 6, 6, 7, 6, 6, 8, 9, 9, 9, 10, 11, 11, 11, 11, 11, 11, 11,
    11, 11, 11, 11,
];

// The state behind each state and class, twelve classes to a state; 8 refuses.
static STATES: [u8; 96] = [
    0, 8, 8, 8, 1, 4, 2, 5, 6, 3, 7, 8, 8, 0, 0, 0, 8, 8, 8, 8, 8, 8, 8, 8, 8, 1, 1, 1, 8, 8, 8, 8,
    8, 8, 8, 8, 8, 2, 2, 2, 8, 8, 8, 8, 8, 8, 8, 8, 8, 8, 8, 1, 8, 8, 8, 8, 8, 8, 8, 8, 8, 1, 1, 8,
    8, 8, 8, 8, 8, 8, 8, 8, 8, 8, 2, 2, 8, 8, 8, 8, 8, 8, 8, 8, 8, 2, 8, 8, 8, 8, 8, 8, 8, 8, 8, 8,
];

// Whether s is UTF-8: the Rust's `from_utf8` as far as success goes. Nearly every text is ASCII, and needs no tables.
// By a rule of the project a table of byte classes stands behind the check, and not std's `from_utf8`.
pub fn is_utf8(s: &[u8]) -> bool
    ensures { Checked s.now result }
{
    s.is_ascii() || reads(behind_ascii(s))
}

// Where the first byte stands that is not ASCII.
fn first_other(s: &[u8]) -> Option<usize>
    ensures { result ≡ position (λ b. not (is_ascii b)) s.now }
{
    s.iter().position(|b| !b.is_ascii())
}

// The text from that byte on. Each byte before it is a character, so that this decides.
fn behind_ascii(s: &[u8]) -> &[u8]
    ensures { is_utf8 result.now ≡ is_utf8 s.now }
{
    &s[first_other(s).unwrap_or(s.len())..]
}

// Whether s is UTF-8, by the tables.
fn reads(s: &[u8]) -> bool
    ensures { result ≡ is_utf8 s.now }
{
    let mut state = 0;
    for b in s {
        state = state_after(state, class_of(*b));
        if state == 8 {
            return false;
        }
    }
    state == 0
}

fn class_of(b: u8) -> u8
    ensures { ClassOf b result }
{
    CLASSES[usize::from(b)]
}

fn state_after(state: u8, class: u8) -> u8
    requires { (state < 8) × (class < 12) }
    ensures { StateAfter state class result }
{
    STATES[usize::from(state) * 12 + usize::from(class)]
}
