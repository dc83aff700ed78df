// What a request is for.
ghost use Rattle.std.specs.Prelude.{◌≡◌};
ghost use Rattle.answer_model.specs.RequestModes.{lacks_target, mode_of, needs_target};

use answer_model::{Mode, Request};

// Whether a request in this mode needs a target: a run does, and so does its plan.
fn needs_target(mode: Mode) -> bool
    ensures { result ≡ needs_target mode }
{
    matches!(mode, Mode::Dry | Mode::Run)
}

/// The mode that counts: the first of `--sample`, `-p`, `-s`, `-e` and `-n` that was given, else a run (own rule).
pub fn mode_of(request: &Request) -> Mode
    ensures { result ≡ mode_of request.now }
{
    if let Some(size) = request.sample {
        Mode::Sample(size)
    } else if request.parse_only {
        Mode::Parse
    } else if request.show {
        Mode::Versions
    } else if request.env {
        Mode::Environment
    } else if request.dry {
        Mode::Dry
    } else {
        Mode::Run
    }
}

// Whether the mode needs a target and there is none.
pub(crate) fn lacks_target(request: &Request) -> bool
    ensures { result ≡ lacks_target request.now }
{
    needs_target(mode_of(request)) && request.targets.is_empty()
}
