// What follows for a run over the same disk.
ghost use Rattle.why_model.specs.Judged.{JudgedAsOpened};

/// The rows that a disk is judged to have are those that opening it gives.
pub fn judged_as_opened()
    ensures { JudgedAsOpened }
{}
