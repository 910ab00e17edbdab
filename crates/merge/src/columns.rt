// The columns of the result rows counted so far.

ghost use Rattle.std.specs.Prelude.{◌≤◌};

// A byte for each column, of which there are `width`, and room for N, since there is no heap.
#[derive(Drop)]
pub struct Columns<const N: usize> {
    pub bytes: [u8; N],
    pub width: usize,
    pub ghost within: { width ≤ N },
}
