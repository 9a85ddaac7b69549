// The rows of an exception table from left to right.
ghost use Rattle.std.specs.Prelude.{◌≡◌, ◌≤◌, ◌<◌, ◌++◌, ℕ, List, drop, filter, length, nat_lt, slice_index_or, IfOk, OnOk};
ghost use Rattle.std.specs.List.Sorted.{IsNonDecreasingBy, IsPermutation};
ghost use Rattle.class_file.specs.declared.class.Handler.{Handler};
ghost use Rattle.verifier.specs.Sweeping.{IsSwept, IsSweptTo};

use class_file::class::Handler;
use kc_text::Memory;
use std::alloc::Global;

/// The rows of an exception table that cover a place, and those that begin later. It goes on to later places, and each row comes and
/// goes once.
#[derive(Drop)]
pub struct HandlerSweep {
    covering: Vec<Handler>,
    // By their starts.
    sorted: Vec<Handler>,
    // Which of those is the first that has not begun.
    next: usize,
}

fn sorted_rows(alloc: Global, table: &[Handler]) -> Result<Vec<Handler>, Memory>
    ensures same { IfOk result (λ rows. IsPermutation table.now rows.items) }
    ensures sorted { IfOk result (λ rows. IsNonDecreasingBy (λ row. row.start) rows.items) }
{
    let mut rows = Vec::from_slice(alloc, table)?;
    rows.sort_by_key(|row| row.start)?;
    Ok(rows)
}

fn drop_ended(covering: &mut Vec<Handler>, pc: usize)
    ensures { covering.new.items ≡ filter (λ row. nat_lt pc row.end) covering.old.items }
{
    covering.retain(|row| pc < row.end);
}

// Takes those that have begun; the answer says which is the next one.
fn take_begun(
    covering: &mut Vec<Handler>,
    sorted: &[Handler],
    next: usize,
    pc: usize,
) -> Result<usize, Memory>
    ensures same { IfOk result (λ left. covering.new.items ++ drop left sorted.now ≡ covering.old.items ++ drop next sorted.now) }
    ensures later { IfOk result (λ left. left < length sorted.now → (d : Handler) → pc < (slice_index_or sorted.now left d).start) }
{
    for number in next..sorted.len() {
        if pc < sorted[number].start {
            return Ok(number);
        }
        covering.push(sorted[number])?;
    }
    Ok(sorted.len())
}

impl HandlerSweep {
    /// Before the code.
    pub fn new(alloc: Global, table: &[Handler]) -> Result<HandlerSweep, Memory>
        ensures { IfOk result (λ sweep. IsSwept table.now 0 sweep) }
    {
        let sorted = sorted_rows(alloc, table)?;
        Ok(HandlerSweep {
            covering: Vec::new(alloc),
            sorted,
            next: 0,
        })
    }

    /// Goes on to a place that is not before the last one.
    pub fn advance(&mut self, pc: usize) -> Result<(), Memory>
        ensures { OnOk result ((table : List Handler) (at : ℕ) → at ≤ pc → IsSwept table at self.old → IsSweptTo table pc self.new) }
    {
        drop_ended(&mut self.covering, pc);
        self.next = take_begun(&mut self.covering, &self.sorted, self.next, pc)?;
        Ok(())
    }

    /// All rows that cover the place, and perhaps some that no longer do.
    pub fn rows(&self) -> &[Handler]
        ensures { result.now ≡ self.now.covering.items }
    {
        self.covering.as_slice()
    }
}
