// What is proved of the definitions.
ghost use Rattle.std.specs.Prelude.{◌≡◌, ◌≤◌, ℕ, List, [], ◌∷◌, ◌++◌, option_to_list, length, map, Bool, Ok, Some, true, false};
ghost use Rattle.meta_model.specs.declared.plan.PlanTask.{PlanTask};
ghost use Rattle.meta_model.specs.CleanBuild.{Entries, Gives, clean_build, clean_output, clean_task, is_beyond, task_output};
ghost use Rattle.std.specs.List.{list_all};
ghost use Rattle.meta_model.specs.declared.entry.EntryLine.{EntryLine as Line};
ghost use Rattle.meta_model.specs.declared.line.Kind.{Kind as FileKind};
ghost use Rattle.meta_model.specs.declared.statement.Statement.{Statement as Written};
ghost use Rattle.meta_model.specs.Base.{value_slot, value_after, flag_slot, flag_after, lates, lates_after, names_in, name_of};
ghost use Rattle.meta_model.specs.Entries.{lines_of, has_no_now};
ghost use Rattle.meta_model.specs.Expansion.{Find, IsAlike, Values, expanded, value_by, expand_by};
ghost use Rattle.meta_model.specs.Overrides.{IsWinning, HasOneWinner, winning};
ghost use Rattle.meta_model.specs.declared.form.Form.{Form};
ghost use Rattle.meta_model.specs.Forms.{asked_by, form_of, told_name};
ghost use Rattle.meta_model.specs.Parts.{HasMostReferences};
ghost use Rattle.meta_model.specs.Statements.{HasOneMeaning};
ghost use Rattle.meta_model.specs.Tasks.{is_task, is_task_after, comes_after, comes_after_line};

/// Each file has statements or a first fault, one meaning alone, and never both.
pub fn one_meaning()
    ensures { (kind : FileKind) (bytes : List ℕ) → HasOneMeaning kind bytes }
{}

/// One more entry behind a list changes values, flags, late entries, names and tasks by one step. So a store that keeps
/// what the steps give has what all entries give.
pub fn step_laws()
    ensures value { (list : List Line) (line : Line) (name : List ℕ)
        → value_slot (list ++ line ∷ []) name ≡ value_after name (value_slot list name) line }
    ensures flag { (list : List Line) (line : Line) (name flag : List ℕ)
        → flag_slot (list ++ line ∷ []) name flag ≡ flag_after name flag (value_slot list name)
        (flag_slot list name flag) line }
    ensures late { (list : List Line) (line : Line) (name : List ℕ)
        → lates (list ++ line ∷ []) name ≡ lates_after name (lates list name) line }
    ensures names { (list : List Line) (line : Line) → names_in (list ++ line ∷ []) ≡ names_in list
        ++ option_to_list (name_of line) }
    ensures task { (list : List Line) (line : Line) (name : List ℕ)
        → is_task (list ++ line ∷ []) name ≡ is_task_after name (is_task list name) line }
    ensures order { (list : List Line) (line : Line) (a b : List ℕ)
        → comes_after (list ++ line ∷ []) a b ≡ comes_after_line a b (comes_after list a b) line }
{}

/// The parts of a text have that text, and no reading of it has more references and forms.
pub fn reading_laws()
    ensures { (text : List ℕ) → HasMostReferences text }
{}

/// The name under which a key tells what a form finds says the form's name and its words.
pub fn form_laws()
    ensures { (inside : List ℕ) (f : Form) → form_of inside ≡ Some f
        → asked_by (told_name f.name f.words) ≡ Some (f.name, f.words) }
{}

/// The winning form of a name is a form, and no form beats it; and two forms of which neither beats the other are one. So
/// a form that no other beats is the winning one, in whatever order the names are gone through.
pub fn winning_laws()
    ensures wins { (list : List Line) (active : List (List ℕ)) (name : List ℕ)
        → IsWinning list active name (winning list active name) }
    ensures alone { (list : List Line) (active : List (List ℕ)) (name : List ℕ) → HasOneWinner list active name }
{}

/// No entry that a statement adds has the operator `:=`: its text is expanded where the entry is made.
pub fn entry_laws()
    ensures { (class : List ℕ) (before : List Line) (statement : Written) (lines : List Line)
        → lines_of class before statement ≡ Ok lines → list_all has_no_now lines ≡ true }
{}

/// An expanded text has at most 1,048,576 bytes; and where two stores find alike for each name, values and texts are
/// alike.
pub fn expansion_laws()
    ensures short { (values : Values) (name text out : List ℕ) → expanded values name text ≡ Ok out
        → length out ≤ 1_048_576 }
    ensures values_alike { (f g : Find) → IsAlike f g → (name : List ℕ) → value_by f name ≡ value_by g name }
    ensures texts_alike { (f g : Find) → IsAlike f g → (text : List ℕ) → expand_by f text ≡ expand_by g text }
{}

/// The clean build of a plan has its tasks in their order, and of each what it gives over what was built before it. A task
/// that needs nothing, and has neither files nor pairs of folders, gives what its script makes of the empty tree. An output
/// is within the limits.
pub fn build_laws()
    ensures tasks { (run : Gives) (tasks : List PlanTask) → map (λ b. b.task) (clean_build run tasks) ≡ tasks }
    ensures step { (run : Gives) (tasks : List PlanTask) (task : PlanTask)
        → clean_build run (tasks ++ task ∷ []) ≡ clean_build run tasks
        ++ record { task = task; outcome = clean_task run (clean_build run tasks) task } ∷ [] }
    ensures alone { (run : Gives) (script : List ℕ) (sstate : Bool)
        → task_output run script sstate [] [] ≡ clean_output run script [] }
    ensures within { (run : Gives) (script : List ℕ) (sstate : Bool) (places : List (List ℕ × List ℕ))
        (layout tree : Entries) → task_output run script sstate places layout ≡ Ok tree → is_beyond tree ≡ false }
{}
