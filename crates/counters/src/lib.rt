// The four counts of a walk. They are lent to the two methods that count, as the Rust's logger is told of each operation and of each result.
#![tactic(auto)]

ghost use Rattle.std.specs.Prelude.{◌≡◌, ◌+◌, ◌<◌, ◌^◌};
ghost use Rattle.counters.specs.Counted.{with_operation, with_result, one_charged, one_loopstop, one_gasstop, one_repeat};

#[derive(Clone, Copy, Debug, Default, PartialEq, Eq)]
pub struct Counters {
    pub charged: u64,
    pub loopstops: u64,
    pub gasstops: u64,
    pub repeats: u64,
}

// The four at the end read the count that stays: what was read is known to be a word.
impl Counters {
    // Operations that are charged, and such as are repeats.
    pub fn add_operation(&mut self, charged: u64, repeats: u64)
        requires { (self.old.charged + charged < 2 ^ 64) × (self.old.repeats + repeats < 2 ^ 64) }
        ensures { self.new ≡ with_operation self.old charged repeats }
    {
        self.charged += charged;
        self.repeats += repeats;
    }

    // Lineages that are closed: at a row that they have handled three times, or since no unit is left.
    pub fn add_result(&mut self, loopstops: u64, gasstops: u64)
        requires { (self.old.loopstops + loopstops < 2 ^ 64) × (self.old.gasstops + gasstops < 2 ^ 64) }
        ensures { self.new ≡ with_result self.old loopstops gasstops }
    {
        self.loopstops += loopstops;
        self.gasstops += gasstops;
    }

    // One operation more is charged.
    pub fn charge(&mut self)
        requires { self.old.charged + 1 < 2 ^ 64 }
        ensures { self.new ≡ one_charged self.old }
    {
        let _repeats = self.repeats;
        self.add_operation(1, 0);
    }

    // One more is a repeat.
    pub fn note_repeat(&mut self)
        requires { self.old.repeats + 1 < 2 ^ 64 }
        ensures { self.new ≡ one_repeat self.old }
    {
        let _charged = self.charged;
        self.add_operation(0, 1);
    }

    // One lineage more is closed at a row that it has handled three times.
    pub fn loop_stop(&mut self)
        requires { self.old.loopstops + 1 < 2 ^ 64 }
        ensures { self.new ≡ one_loopstop self.old }
    {
        let _gasstops = self.gasstops;
        self.add_result(1, 0);
    }

    // One more is closed since no unit is left.
    pub fn gas_stop(&mut self)
        requires { self.old.gasstops + 1 < 2 ^ 64 }
        ensures { self.new ≡ one_gasstop self.old }
    {
        let _loopstops = self.loopstops;
        self.add_result(0, 1);
    }
}
