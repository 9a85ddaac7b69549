// Sinks: bytes that are written to the end.
ghost use Rattle.std.specs.Prelude.{◌≡◌, ℕ, ◌<◌, ◌≤◌, List, length, take, Option, IfOk, OnOk, OnErr};
ghost use Rattle.kc_io.specs.Told.{appended, GainsFront};
ghost use Rattle.kc_io.specs.Causes.{HasCause};

use std::alloc::Global;

/// Why a write was not made.
#[derive(Clone, Copy, Debug, PartialEq, Eq)]
pub enum OutFault {
    /// The bytes could not be written. The sink's count of faults has risen.
    Failed,
    /// There was not enough memory.
    Memory,
}

/// Bytes that are written to the end.
pub trait Sink {
    /// The bytes taken, if the sink tells them.
    ghost taken: { Self → Option (List ℕ) };

    /// How often a call has failed.
    ghost faults: { Self → ℕ };

    /// Appends some of the first bytes of the piece, and answers how many.
    fn write(&mut self, alloc: Global, bytes: &[u8]) -> Result<usize, OutFault>
        ensures bound { IfOk result (λ n. n ≤ length bytes.now) }
        ensures ok { IfOk result (λ n. taken self.new ≡ appended (taken self.old) (take n bytes.now)) }
        ensures err { OnErr result (taken self.new ≡ taken self.old) }
        ensures nothing { IfOk result (λ n. n ≡ 0 → 0 < length bytes.now → faults self.old < faults self.new) }
        ensures cause { HasCause (faults self.old) (faults self.new) result }
        ensures faults { faults self.old ≤ faults self.new };
}

/// Writes the whole piece, in as many calls as it takes. At an error the sink has taken a front of it.
#[tactic(auto, using(crate::specs::Told::gains))]
pub fn write_all<S: Sink>(sink: &mut S, alloc: Global, bytes: &[u8]) -> Result<(), OutFault>
    ensures ok { OnOk result (S.taken sink.new ≡ appended (S.taken sink.old) bytes.now) }
    ensures front { GainsFront (S.taken sink.old) (S.taken sink.new) bytes.now }
    ensures cause { HasCause (S.faults sink.old) (S.faults sink.new) result }
    ensures faults { S.faults sink.old ≤ S.faults sink.new }
{
    let mut rest = bytes;
    while !rest.is_empty() {
        let count = sink.write(alloc, rest)?;
        if count == 0 {
            return Err(OutFault::Failed);
        }
        rest = &rest[count..];
    }
    Ok(())
}
