//! What a turn hands on.
ghost use Rattle.std.specs.Prelude.{ℕ, List};

/// A value with a name that never changes, and a tale that only grows. All of it is for contracts alone.
pub trait Story {
    /// What tells one story from another. No value of it is made.
    type Name;
    /// What the tale is made of.
    type Entry;

    // The name of the story, which stays the same over all turns.
    ghost name: { Self → Self.Name };

    // What was done to the story so far, the oldest entry first.
    ghost tale: { Self → List Self.Entry };

    // The number of the seat that added the entry.
    ghost author: { Self.Entry → ℕ };
}
