// Benches whose first runs wait for one another.
ghost use Rattle.std.specs.Prelude.{◌≡◌, IfOk, IsTrue, IsSome};
ghost use Rattle.tree_model.specs.Path.{IsClean};
ghost use Rattle.outside_traits.specs.Fault.{Counts, bench_failed};
ghost use Rattle.outside_traits.specs.Bench.{Clears, IsVacant, Puts, Runs, Takes};

use crate::plan::count_fault;
use outside_traits::{Bench, BenchFault, Taken};
use std::alloc::Global;
use std::hint;
use std::sync::Arc;
use std::sync::atomic::{AtomicU64, Ordering};
use tree_model::{Entry, Mem, Size};

/// How many first runs were asked for by the benches that share it, and for how many of them each waits.
#[derive(Drop)]
pub struct Gate {
    asked: Arc<AtomicU64, Global>,
    workers: u64,
    turns: u64,
}

impl Gate {
    /// A gate that opens once so many first runs were asked for. Who waits looks at it so often at the most.
    pub fn new(alloc: Global, workers: u64, turns: u64) -> Result<Gate, Mem> {
        Ok(Gate {
            asked: Arc::new(alloc, AtomicU64::new(0))?,
            workers,
            turns,
        })
    }

    /// The same gate once more.
    fn share(&self) -> Result<Gate, Mem> {
        Ok(Gate {
            asked: Arc::try_clone(&self.asked)?,
            workers: self.workers,
            turns: self.turns,
        })
    }

    /// Counts a first run, and waits for the others. Whether they came.
    fn pass(&self) -> bool {
        let _ = self.asked.fetch_add(1, Ordering::AcqRel);
        for _ in 0..self.turns {
            if self.asked.load(Ordering::Acquire) >= self.workers {
                return true;
            }
            hint::spin_loop();
        }
        false
    }
}

/// What stands before the runs of a bench.
#[derive(Drop)]
enum Door {
    Open,
    First(Gate),
    Shut,
}

/// A bench over another one, by which it is shown how many workers are at work at once: its first run waits until so many benches
/// were asked for theirs, and fails where they don't come; or each of its runs fails. Of the waiting no clause speaks. (Own rule.)
#[derive(Drop)]
pub struct GateBench<B> {
    bench: B,
    door: Door,
    faults: u64,
}

impl<B> GateBench<B> {
    ghost use Rattle.outside_mem.specs.Gates.{gated, gate_faults};

    /// A bench that waits for nobody.
    pub fn open(bench: B) -> GateBench<B>
        ensures bench { gated result ≡ bench }
        ensures fresh { gate_faults result ≡ 0 }
    {
        GateBench {
            bench,
            door: Door::Open,
            faults: 0,
        }
    }

    /// A bench whose first run waits at the gate.
    pub fn behind(gate: &Gate, bench: B) -> Result<GateBench<B>, Mem>
    where
        B: Drop,
        ensures bench { IfOk result (λ made. gated made ≡ bench) }
        ensures fresh { IfOk result (λ made. gate_faults made ≡ 0) }
    {
        let gate = gate.share()?;
        Ok(GateBench {
            bench,
            door: Door::First(gate),
            faults: 0,
        })
    }

    /// A bench each run of which fails.
    pub fn shut(bench: B) -> GateBench<B>
        ensures bench { gated result ≡ bench }
        ensures fresh { gate_faults result ≡ 0 }
    {
        GateBench {
            bench,
            door: Door::Shut,
            faults: 0,
        }
    }

    /// Whether the next run may begin, once those came that it waits for.
    fn enter(&mut self) -> bool
        ensures same { gated self.new ≡ gated self.old }
        ensures faults { gate_faults self.new ≡ gate_faults self.old }
    {
        match &self.door {
            Door::Open => true,
            Door::Shut => false,
            Door::First(gate) => {
                let came = gate.pass();
                self.door = Door::Open;
                came
            }
        }
    }

    /// Counts a failed call.
    fn count<T>(&mut self, answer: Result<T, BenchFault>) -> Result<T, BenchFault>
        ensures same { gated self.new ≡ gated self.old }
        ensures answer { result ≡ answer }
        ensures faults { Counts (gate_faults self.old) (gate_faults self.new) (bench_failed answer) }
    {
        if let Err(BenchFault::Failed) = &answer {
            count_fault(&mut self.faults);
        }
        answer
    }
}

impl<B: Bench> Bench for GateBench<B> {
    ghost use Rattle.outside_mem.specs.Gates.{gated, gate_faults};

    ghost tells = { B.tells };

    ghost gives = { λ b. B.gives (gated b) };

    ghost place = { λ b. B.place (gated b) };

    ghost faults = { gate_faults };

    fn clear(&mut self, alloc: Global, recipe: &str, task: &str) -> Result<(), BenchFault>
        ensures told { B.tells → Clears (B.place (gated self.old)) (B.place (gated self.new)) result }
        ensures gives { B.gives (gated self.new) ≡ B.gives (gated self.old) }
        ensures cause { Counts (gate_faults self.old) (gate_faults self.new) (bench_failed result) }
    {
        let answer = self.bench.clear(alloc, recipe, task);
        self.count(answer)
    }

    fn put(&mut self, alloc: Global, path: &str, entry: &Entry) -> Result<(), BenchFault>
        requires clean { IsClean path.now }
        requires cleared { B.tells → IsTrue (B.place (gated self.old)).cleared }
        requires vacant { B.tells → IsVacant (B.place (gated self.old)).laid path.now }
        ensures told { B.tells → Puts path.now entry.now (B.place (gated self.old)) (B.place (gated self.new)) result }
        ensures gives { B.gives (gated self.new) ≡ B.gives (gated self.old) }
        ensures cause { Counts (gate_faults self.old) (gate_faults self.new) (bench_failed result) }
    {
        let answer = self.bench.put(alloc, path, entry);
        self.count(answer)
    }

    /// Fails where the bench is shut, or where the others didn't come.
    fn run(&mut self, alloc: Global, script: &str) -> Result<u32, BenchFault>
        requires cleared { B.tells → IsTrue (B.place (gated self.old)).cleared }
        ensures told { B.tells → Runs (B.gives (gated self.old)) script.now (B.place (gated self.old))
            (B.place (gated self.new)) result }
        ensures gives { B.gives (gated self.new) ≡ B.gives (gated self.old) }
        ensures cause { Counts (gate_faults self.old) (gate_faults self.new) (bench_failed result) }
    {
        if !self.enter() {
            return self.count(Err(BenchFault::Failed));
        }
        let answer = self.bench.run(alloc, script);
        self.count(answer)
    }

    fn take(&mut self, alloc: Global, max: Size) -> Result<Taken, BenchFault>
        requires has_output { B.tells → IsSome (B.place (gated self.old)).output }
        ensures told { B.tells → Takes max (B.place (gated self.old)) (B.place (gated self.new)) result }
        ensures gives { B.gives (gated self.new) ≡ B.gives (gated self.old) }
        ensures cause { Counts (gate_faults self.old) (gate_faults self.new) (bench_failed result) }
    {
        let answer = self.bench.take(alloc, max);
        self.count(answer)
    }

    fn wait_synced(&mut self) -> bool
        ensures place { B.tells → B.place (gated self.new) ≡ B.place (gated self.old) }
        ensures gives { B.gives (gated self.new) ≡ B.gives (gated self.old) }
        ensures faults { gate_faults self.new ≡ gate_faults self.old }
    {
        self.bench.wait_synced()
    }
}
