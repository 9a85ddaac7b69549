// Sources: bytes that are read from the front.
ghost use Rattle.std.specs.Prelude.{◌≡◌, ℕ, ◌<◌, ◌≤◌, List, [], length, take, Option, IfSome, IfOk, OnErr};
ghost use Rattle.kc_io.specs.Told.{prepended};

/// A read failed.
#[derive(Clone, Copy, Debug, PartialEq, Eq)]
pub struct ReadFailed;

/// Bytes that are read from the front.
pub trait Source {
    /// The bytes left, if the source tells them.
    ghost left: { Self → Option (List ℕ) };

    /// How often a call has failed.
    ghost faults: { Self → ℕ };

    /// Reads some of the bytes left into the front of the buffer, and answers how many.
    fn read(&mut self, buf: &mut [u8]) -> Result<usize, ReadFailed>
        ensures bound { IfOk result (λ n. n ≤ length buf.new) }
        ensures bytes { IfOk result (λ n. left self.old ≡ prepended (take n buf.new) (left self.new)) }
        ensures end { IfOk result (λ n.
            n ≡ 0 → 0 < length buf.new → IfSome (left self.old) (λ bytes. bytes ≡ [])) }
        ensures err { OnErr result (left self.new ≡ left self.old) }
        ensures cause { OnErr result (faults self.old < faults self.new) }
        ensures faults { faults self.old ≤ faults self.new };
}
