// Which calls of a device in memory fail.
ghost use Rattle.std.specs.Prelude.{◌≡◌, true};
ghost use Rattle.outside_traits.specs.Fault.{Counts};
ghost use Rattle.outside_mem.specs.Plan.{Follows, fresh_plan};

/// The numbers of the calls that fail, and how many calls there were.
#[derive(Drop)]
pub struct FaultPlan {
    numbers: Vec<u64>,
    calls: u64,
}

impl FaultPlan {
    /// No call was made yet.
    pub(crate) fn new(numbers: Vec<u64>) -> FaultPlan
        ensures { result ≡ fresh_plan numbers }
    {
        FaultPlan { numbers, calls: 0 }
    }

    /// Counts a call, and says whether it fails.
    pub(crate) fn next_fails(&mut self) -> bool
        ensures { Follows self.old self.new result }
    {
        self.calls = self.calls.saturating_add(1);
        self.numbers.contains(&self.calls)
    }
}

/// Counts a fault.
pub(crate) fn count_fault(faults: &mut u64)
    ensures { Counts faults.old faults.new true }
{
    *faults = faults.saturating_add(1);
}
