// A bench in memory, that gives a digest of what it was given.
ghost use Rattle.std.specs.Prelude.{◌≡◌, ◌++◌, ◌∷◌, IfOk, IsTrue, IsSome, [], codes, true, None};
ghost use Rattle.tree_model.specs.Hash.{hash_text};
ghost use Rattle.tree_model.specs.Path.{IsClean};
ghost use Rattle.outside_traits.specs.Fault.{Counts, bench_failed};
ghost use Rattle.outside_traits.specs.Bench.{Clears, IsVacant, Puts, Runs, Takes};
ghost use Rattle.outside_mem.specs.Fingerprint.{fingerprint_tree, gives_fingerprint};

use crate::fingerprint::fingerprint_of;
use crate::place::Place;
use outside_traits::{Bench, BenchFault, Taken};
use std::alloc::Global;
use tree_model::{Bytes, Entry, Hash, Mem, Size, Tree};

/// A bench that runs no script. What it gives is a tree with one file `out`: the SHA-256, in hexadecimal digits, of the
/// framed script and the bytes of the manifest of all that is laid, and a newline. So what it gives tells scripts and
/// inputs apart. It never fails. (Own rule.)
#[derive(Drop)]
pub struct MemBench {
    place: Place,
}

impl MemBench {
    ghost use Rattle.outside_mem.specs.Told.{mem_place};

    /// A bench on which nothing is laid and nothing ran. It takes no memory.
    pub fn new(alloc: Global) -> MemBench
        ensures { mem_place result ≡ record { laid = []; cleared = true; output = None; runs = [] } }
    {
        MemBench {
            place: Place::new(alloc),
        }
    }
}

impl Bench for MemBench {
    ghost use Rattle.outside_mem.specs.Told.{mem_place};

    ghost tells = { Unit {0} };

    ghost gives = { λ _. gives_fingerprint };

    ghost place = { mem_place };

    ghost faults = { λ _. 0 };

    fn clear(&mut self, alloc: Global, _recipe: &str, _task: &str) -> Result<(), BenchFault>
        ensures told { Clears (mem_place self.old) (mem_place self.new) result }
        ensures cause { Counts 0 0 (bench_failed result) }
    {
        self.place.clear(alloc);
        Ok(())
    }

    fn put(&mut self, alloc: Global, path: &str, entry: &Entry) -> Result<(), BenchFault>
        requires clean { IsClean path.now }
        requires cleared { IsTrue (mem_place self.old).cleared }
        requires vacant { IsVacant (mem_place self.old).laid path.now }
        ensures told { Puts path.now entry.now (mem_place self.old) (mem_place self.new) result }
        ensures cause { Counts 0 0 (bench_failed result) }
    {
        Ok(self.place.put(alloc, path, entry)?)
    }

    fn run(&mut self, alloc: Global, script: &str) -> Result<u32, BenchFault>
        requires cleared { IsTrue (mem_place self.old).cleared }
        ensures told { Runs gives_fingerprint script.now (mem_place self.old) (mem_place self.new) result }
        ensures cause { Counts 0 0 (bench_failed result) }
    {
        let hash = fingerprint_of(script, self.place.laid());
        let output = tree_of_digest(alloc, &hash)?;
        self.place.keep_run(alloc, script, Some(output))?;
        Ok(0)
    }

    fn take(&mut self, alloc: Global, max: Size) -> Result<Taken, BenchFault>
        requires has_output { IsSome (mem_place self.old).output }
        ensures told { Takes max (mem_place self.old) (mem_place self.new) result }
        ensures cause { Counts 0 0 (bench_failed result) }
    {
        Ok(self.place.take(&max))
    }

    fn wait_synced(&mut self) -> bool
        ensures synced { result ≡ true }
        ensures place { mem_place self.new ≡ mem_place self.old }
    {
        true
    }
}

/// The tree of one file `out` with the digest.
fn tree_of_digest(alloc: Global, hash: &Hash) -> Result<Tree, Mem>
    ensures { IfOk result (λ tree. tree ≡ fingerprint_tree hash.now) }
{
    let bytes = digest_line(alloc, hash)?;
    let mut tree = Tree::empty(alloc);
    tree.put(alloc, "out", Entry::File { exec: false, bytes })?;
    // What was put is a tree.
    let _ = tree.entries();
    Ok(tree)
}

/// The digest's digits and a newline.
fn digest_line(alloc: Global, hash: &Hash) -> Result<Bytes, Mem>
    ensures { IfOk result (λ bytes. bytes ≡ hash_text hash.now ++ 10 ∷ []) }
{
    let mut bytes = Vec::with_capacity(alloc, 65)?;
    bytes.extend_from_slice(hash.digits().as_slice())?;
    bytes.push(b'\n')?;
    Ok(Bytes::from_vec(bytes))
}
