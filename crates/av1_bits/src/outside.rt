// What the program sends to and reads from, by what it holds and a count of faults.
ghost use Rattle.std.specs.Prelude.{◌≡◌, ◌↔◌, ℕ, ◌<◌, ◌≤◌, [], List, length, take, Option, Some, None, IfOk, OnOk, OnErr};
ghost use Rattle.av1_bits.specs.Outside.{Rose, Still, Moves, appended};

/// A call failed, and the count of faults of its object rose.
#[derive(Clone, Copy, Debug, PartialEq, Eq)]
pub struct Failed;

/// Takes bytes.
pub trait Sink {
    /// The bytes that it holds, where it tells them.
    ghost sent: { Self → Option (List ℕ) };

    /// How often it has failed, up to the last value of a `u64`.
    ghost faults: { Self → ℕ };

    /// Takes at least one byte from the front of a piece that isn't empty, and answers how many; or
    /// answers `Failed`, and has taken nothing. An empty piece gives 0.
    fn send(&mut self, piece: &[u8]) -> Result<usize, Failed>
        ensures taken { IfOk result (λ n. n ≤ length piece.now) }
        ensures some { IfOk result (λ n. 0 < length piece.now → 0 < n) }
        ensures held { IfOk result (λ n. sent self.new ≡ appended (sent self.old) (take n piece.now)) }
        ensures none_taken { OnErr result (sent self.new ≡ sent self.old) }
        ensures count { OnOk result (faults self.new ≡ faults self.old) }
        ensures fault { OnErr result (Rose (faults self.old) (faults self.new)) }
        ensures empty { length piece.now ≡ 0 → result ≡ Ok 0 };
}

/// Gives bytes.
pub trait Source {
    /// The bytes that are left, where it tells them.
    ghost left: { Self → Option (List ℕ) };

    /// How often it has failed, up to the last value of a `u64`.
    ghost faults: { Self → ℕ };

    /// Moves bytes from the front of what is left to the front of `buf`, and answers how many. For a
    /// buffer that isn't empty, 0 is the end. At `Failed` nothing was taken.
    fn read(&mut self, buf: &mut [u8]) -> Result<usize, Failed>
        ensures fits { IfOk result (λ n. n ≤ length buf.old) }
        ensures moved { IfOk result (λ n. (bytes : List ℕ) → left self.old ≡ Some bytes → Moves n bytes buf.new (left self.new)) }
        ensures end { IfOk result (λ n. (bytes : List ℕ) → left self.old ≡ Some bytes → 0 < length buf.old → (n ≡ 0) ↔ (bytes ≡ [])) }
        ensures untold { left self.old ≡ None → left self.new ≡ None }
        ensures none_taken { OnErr result (left self.new ≡ left self.old) }
        ensures count { OnOk result (faults self.new ≡ faults self.old) }
        ensures fault { OnErr result (Rose (faults self.old) (faults self.new)) };
}

/// A count that rose, or stands at its last value, is not one that didn't rise and isn't there.
pub fn a_count_that_rose_is_not_still()
    ensures { (old new : ℕ) → Rose old new → Still old new → ⊥ }
{}
