// What recipes say of one another, and the graph of their tasks.
ghost use Rattle.std.specs.Prelude.{◌≡◌, IfOk};

use tree_model::{ListOf, Mem, Text, Texts};

/// A task of a recipe.
#[derive(Debug, Drop)]
pub struct TaskId {
    /// The configuration. It is empty for the default one.
    pub mc: Text,
    /// The recipe's PN.
    pub pn: Text,
    /// The task's name, with `do_` in front.
    pub task: Text,
}

impl TaskId {
    /// The same task again.
    pub fn copy(&self) -> Result<TaskId, Mem>
        ensures { IfOk result (λ made. made ≡ self.now) }
    {
        Ok(TaskId {
            mc: self.mc.copy()?,
            pn: self.pn.copy()?,
            task: self.task.copy()?,
        })
    }
}

/// A package of a recipe.
#[derive(Debug, Drop)]
pub struct Package {
    /// Its name.
    pub name: Text,
    /// What it needs at run time: the words of RDEPENDS for this package.
    pub rdepends: Texts,
    /// What it stands for at run time: the words of RPROVIDES for this package.
    pub rprovides: Texts,
}

/// What a recipe says of one of its tasks.
#[derive(Debug, Drop)]
pub struct TaskFacts {
    /// The task's name.
    pub task: Text,
    /// The tasks of the same recipe that it comes after.
    pub after: Texts,
    /// The words of its flag `depends`, as a recipe's or a provided name and a task.
    pub depends: ListOf<(Text, Text)>,
    /// The words of its flag `deptask`.
    pub deptask: Texts,
    /// The words of its flag `rdeptask`.
    pub rdeptask: Texts,
    /// The words of its flag `recrdeptask`.
    pub recrdeptask: Texts,
}

/// What a recipe says of itself.
#[derive(Debug, Drop)]
pub struct RecipeFacts {
    /// The path of its file, relative to the project folder.
    pub file: Text,
    /// Its name.
    pub pn: Text,
    /// Its version.
    pub pv: Text,
    /// Its revision.
    pub pr: Text,
    /// The names that it provides: the words of PROVIDES.
    pub provides: Texts,
    /// The names that it needs at build time: the words of DEPENDS.
    pub depends: Texts,
    /// Its packages.
    pub packages: ListOf<Package>,
    /// Its tasks.
    pub tasks: ListOf<TaskFacts>,
}

/// What all recipes and the configuration say.
#[derive(Debug, Drop)]
pub struct FactSet {
    /// The chosen recipe of each PN.
    pub recipes: ListOf<RecipeFacts>,
    /// Names with the PN that the configuration prefers for each.
    pub preferred: ListOf<(Text, Text)>,
    /// The names that count as provided from outside.
    pub assumed: Texts,
}

/// What a run is asked for: a task of the provider of a name.
#[derive(Debug, Drop)]
pub struct Target {
    /// A recipe's name, or one that a recipe provides.
    pub name: Text,
    /// The task's name, with `do_` in front.
    pub task: Text,
}

/// A task of the graph.
#[derive(Debug, Drop)]
pub struct Node {
    /// The task.
    pub id: TaskId,
    /// The number of its recipe among the facts, from 0.
    pub recipe: u32,
    /// The numbers of the nodes that it needs directly.
    pub deps: ListOf<u32>,
    /// 0 without such nodes, else one more than the deepest of them.
    pub depth: u32,
}

/// The tasks that targets reach.
#[derive(Debug, Drop)]
pub struct Graph {
    /// The tasks, ascending by depth, then PN, then task.
    pub nodes: ListOf<Node>,
    /// The numbers of the targets' nodes.
    pub targets: ListOf<u32>,
}
