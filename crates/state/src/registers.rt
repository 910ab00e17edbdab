// Registers one after the other.

ghost use Rattle.std.specs.Prelude.{◌+◌, ◌≤◌};

// `count` registers from `first` on, none of which is beyond the last that there can be.
#[derive(Clone, Copy)]
pub struct Registers {
    pub first: u64,
    pub count: u64,
    pub ghost within: { first + count ≤ 65536 },
}
