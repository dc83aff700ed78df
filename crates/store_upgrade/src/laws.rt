// What is proved of a store that was brought to the present format.
ghost use Rattle.store_upgrade.specs.Upgraded.{UpgradedIsAvailable};

/// A task of a plan that was available in the first format is so in the same way behind the move, where neither it nor a task below it collided there.
pub fn upgraded_is_available()
    ensures { UpgradedIsAvailable }
{}
