//! Faults, and plans of them for tests.

ghost use Rattle.std.specs.Prelude.{◌≡◌, ◌≤◌, ◌==◌, is_err};
ghost use Rattle.std.specs.List.{list_any};
ghost use Rattle.manu_edge.specs.Faults.{next, is_planned, Counts};

/// A call to the outside failed; its object counts it.
#[derive(Debug, Clone, Copy, PartialEq, Eq)]
pub struct Failed;

/// Why a keeper didn't do what it was asked.
#[derive(Debug, Clone, Copy, PartialEq, Eq)]
pub enum KeepError {
    /// The call failed; the keeper counts it.
    Failed,
    /// There was no memory for it.
    Memory,
}

/// Which calls of an object in memory fail, and how many calls and faults there were.
#[derive(Debug, Drop)]
pub struct FailurePlan {
    failing: Vec<u32>,
    calls: u64,
    faults: u64,
}

impl FailurePlan {
    /// The plan by which the calls of these numbers fail, counted from 1.
    pub fn new(failing: Vec<u32>) -> FailurePlan
        ensures failing { result.failing.items ≡ failing.items }
        ensures calls { result.calls ≡ 0 }
        ensures faults { result.faults ≡ 0 }
    {
        FailurePlan {
            failing,
            calls: 0,
            faults: 0,
        }
    }

    /// Counts a call, which fails where the plan says so.
    pub fn begin(&mut self) -> Result<(), Failed>
        ensures planned { is_err result ≡ is_planned self.old }
        ensures counts { Counts self.old self.new (is_err result) }
        ensures later { self.old.faults ≤ self.new.faults }
    {
        self.calls = self.calls.saturating_add(1);
        if self.names(self.calls) {
            return Err(self.fail());
        }
        Ok(())
    }

    // Whether the call of this number has to fail.
    fn names(&self, call: u64) -> bool
        ensures { result ≡ list_any (λ number. number == call) self.now.failing.items }
    {
        self.failing.iter().any(|number| u64::from(*number) == call)
    }

    /// Counts a fault that the plan didn't ask for.
    pub fn fail(&mut self) -> Failed
        ensures faults { self.new.faults ≡ next self.old.faults }
        ensures later { self.old.faults ≤ self.new.faults }
        ensures calls { self.new.calls ≡ self.old.calls }
        ensures failing { self.new.failing.items ≡ self.old.failing.items }
    {
        self.faults = self.faults.saturating_add(1);
        Failed
    }
}
