// Where a run may begin, each law the contract of a function that does nothing.
ghost use Rattle.build_resume.specs.Laws.{FirstEntry, NextEntry};

/// A run may begin on an empty disk, and on what a crash of any earlier run left, whatever plan that had.
pub fn entry_laws()
    ensures first { FirstEntry }
    ensures next { NextEntry }
{}
