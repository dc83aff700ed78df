// What is proved of names and of what a run needs.
ghost use Rattle.std.specs.Prelude.{◌≡◌, ℕ, Bool, List, slice_get};
ghost use Rattle.meta_model.specs.declared.event.Avail.{Avail as Availability};
ghost use Rattle.meta_model.specs.declared.plan.Plan.{Plan as ThePlan};
ghost use Rattle.tale_model.specs.Need.{IsIn, IsNeed};
ghost use Rattle.store_model.specs.declared.signature.EquivRow.{EquivRow as Row};
ghost use Rattle.setscene_plan.specs.declared.replan.Replan.{Replan as Kept};
ghost use Rattle.setscene_plan.specs.Names.{NamesAreOver};
ghost use Rattle.setscene_plan.specs.Replans.{AreSettling, IsCurrent, IsSettled};
ghost use Rattle.setscene_plan.specs.View.{Follows, View};

/// Names that are worked out task by task, each by the unihashes of those before it, are the names from scratch.
pub fn names_law()
    ensures { NamesAreOver }
{}

/// What is needed depends on nothing but whether the outputs of needed tasks are there: by two lists that agree on these the
/// same tasks are needed; and one list needs one set. So what is needed by the answers for all tasks is what is needed by those
/// for needed tasks alone.
pub fn need_law()
    ensures same { (plan : ThePlan) (avail other : List Availability) (need : List Bool) → IsNeed plan avail need
        → ((t : ℕ) → IsIn need t → slice_get avail t ≡ slice_get other t) → IsNeed plan other need }
    ensures one { (plan : ThePlan) (avail : List Availability) (need other : List Bool) → IsNeed plan avail need
        → IsNeed plan avail other → need ≡ other }
{}

/// What answers of outputs mean.
pub trait Meaning {
    ghost use Rattle.setscene_plan.specs.View.{Says};

    /// For the number of a task, a signature and an answer a fact.
    ghost says: { Says };
}

/// What `settled` asks for is met where what is kept was up to date, and then a row of the task's name came to be, with the task's own
/// signature and any unihash, or none did: whatever answers mean, if it is the same before and after. And what is up to date is so
/// too by another meaning that follows from theirs.
pub fn settling_law<M: Meaning, N: Meaning>()
    ensures settles { (view : View) (rows : List Row) (task : ℕ) (kept : Kept) → IsCurrent M.says view kept
        → AreSettling view rows task kept → IsSettled M.says (record view { rows = rows }) task kept }
    ensures follows { Follows M.says N.says → (view : View) (kept : Kept) → IsCurrent M.says view kept
        → IsCurrent N.says view kept }
{}
