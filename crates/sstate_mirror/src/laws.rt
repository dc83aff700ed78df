// What is proved of a store to which records were brought.
ghost use Rattle.sstate_mirror.specs.Laws.{BroughtIsAvailable};

/// A task of a plan that the mirror has by an object, the own store has by one, where neither it nor a task below it collided there.
pub fn brought_is_available()
    ensures { BroughtIsAvailable }
{}
