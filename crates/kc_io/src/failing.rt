// Which calls on an object in memory are to fail.
ghost use Rattle.std.specs.Prelude.{◌≡◌, [], ◌∷◌};
ghost use Rattle.kc_io.specs.Memory.{is_due, next_calls};

use std::marker::Model;

/// The numbers, from 1, of the calls that are to fail, and how many were made and failed.
#[derive(Debug, Drop)]
pub struct FailingCalls {
    failing: Vec<u64>,
    made: u64,
    failed: u64,
}

impl Model for FailingCalls {
    ghost use Rattle.std.specs.Prelude.{◌≤◌};
    ghost use Rattle.kc_io.specs.Memory.{Calls};

    ghost Value = { Calls };

    ghost view = { λ c. record { failing = c.failing.items; made = c.made; failed = c.failed } };

    // so that the count of failed calls never reaches its end before that of the calls
    ghost invariant = { λ c. c.failed ≤ c.made };
}

impl FailingCalls {
    pub fn new(failing: Vec<u64>) -> FailingCalls
        ensures { result ≡ record { failing = failing.items; made = 0; failed = 0 } }
    {
        FailingCalls {
            failing,
            made: 0,
            failed: 0,
        }
    }

    /// Counts one more call, and says whether it is to fail.
    pub fn count(&mut self) -> bool
        ensures due { result ≡ is_due self.old }
        ensures calls { self.new ≡ next_calls self.old }
    {
        let Some(number) = self.made.checked_add(1) else {
            return false;
        };
        self.made = number;
        let is_due = self.failing.contains(&number);
        if is_due {
            self.failed += 1;
        }
        is_due
    }
}
