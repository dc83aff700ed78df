// Laws of the clean build, as the contract of a function that does nothing.
ghost use Rattle.task_worker.specs.OneTask.{NoJob, OneJob, OneTask};
ghost use Rattle.task_worker.specs.Runnable.{SoundIsRunnable};

/// What `layout` lays over the clean outputs of the tasks that a task needs, and what a job with that layout gives, are what the
/// clean build has of the task.
pub fn one_task()
    ensures task { OneTask }
    ensures job { OneJob }
    ensures too_large { NoJob }
{}

/// A sound plan can be run.
pub fn runnable_law()
    ensures { SoundIsRunnable }
{}
