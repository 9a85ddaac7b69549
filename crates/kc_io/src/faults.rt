// The count of failures that an object of the running system keeps.
ghost use Rattle.std.specs.Prelude.{◌≡◌, ◌+◌, ◌-◌, ◌<◌, ◌^◌, ◌↔◌, IsTrue};

/// How often an object failed. At the largest count the object has to end, since no further failure could be
/// told by it.
#[derive(Clone, Copy, Debug)]
pub struct FaultCount {
    pub count: u64,
}

impl FaultCount {
    pub fn new() -> FaultCount
        ensures { result.count ≡ 0 }
    {
        FaultCount { count: 0 }
    }

    /// Is there room for a further failure?
    pub fn has_room(&self) -> bool
        ensures { IsTrue result ↔ (self.now.count < 2 ^ 64 - 1) }
    {
        self.count < u64::MAX
    }

    /// Counts a failure.
    pub fn raise(&mut self)
        requires { self.old.count < 2 ^ 64 - 1 }
        ensures { self.new.count ≡ self.old.count + 1 }
    {
        self.count += 1;
    }
}
