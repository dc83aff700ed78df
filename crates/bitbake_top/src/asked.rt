// What the words ask for.
ghost use Rattle.std.specs.Prelude.{◌≡◌, true, Ok, IfOk, IfErr};
ghost use Rattle.answer_model.specs.Answers.{IsRefusal};
ghost use Rattle.bitbake_top.specs.Answers.{is_words_refusal};
ghost use Rattle.answer_model.specs.Asked as asked;
ghost use Rattle.answer_model.specs.declared.asked.Asked.TheVariants.{Plans, Reads, Shows};
ghost use Rattle.answer_model.specs.declared.asked.ReadMode.TheVariants.{Environment};
ghost use Rattle.answer_model.specs.declared.asked.ShowMode.TheVariants.{Plan, Values};

use answer_model::{Asked, DryRequest, Mode, ReadMode, Request, RunRequest, ShowMode};
use command_words::{WordsFault, mode_of, read_words};
use meta_model::{Options, Status};
use multi_config::has_elsewhere;
use std::alloc::Global;
use tree_model::Text;

/// The run of a request.
fn run_of(request: Request) -> RunRequest
    ensures { result ≡ asked.run_of request }
{
    RunRequest {
        targets: request.targets,
        task: request.task,
        force: request.force,
        options: Options {
            keep_going: request.keep_going,
            setscene: request.setscene,
        },
    }
}

/// What a run asks for: one of several configurations, where a word names one.
fn run_asked(request: RunRequest) -> Asked
    ensures { result ≡ asked.run_asked request }
{
    if has_elsewhere(request.targets.as_slice()) {
        return Asked::Configs(request);
    }
    Asked::Runs(request)
}

/// The dry run of a request.
fn dry_of(request: Request) -> DryRequest
    ensures { result ≡ asked.dry_of request }
{
    DryRequest {
        targets: request.targets,
        task: request.task,
    }
}

/// What a mode prints for a request.
fn reading_of(mode: ReadMode, request: Request) -> Asked
    ensures { result ≡ Reads mode request.targets }
{
    Asked::Reads {
        mode,
        targets: request.targets,
    }
}

/// What is shown of several configurations for a request, where a word names one.
fn shows(what: ShowMode, request: Request) -> Asked
    ensures { result ≡ Shows what (asked.run_of request) }
{
    Asked::Shows {
        what,
        request: run_of(request),
    }
}

/// What `-e` prints for a request.
fn environment_of(request: Request) -> Asked
    ensures { result ≡ asked.shown_or Values request (Reads Environment request.targets) }
{
    if has_elsewhere(request.targets.as_slice()) {
        return shows(ShowMode::Values, request);
    }
    reading_of(ReadMode::Environment, request)
}

/// What `-n` prints for a request.
fn plan_of(request: Request) -> Asked
    ensures { result ≡ asked.shown_or Plan request (Plans (asked.dry_of request)) }
{
    if has_elsewhere(request.targets.as_slice()) {
        return shows(ShowMode::Plan, request);
    }
    Asked::Plans(dry_of(request))
}

/// What a request asks for.
fn asked_for(alloc: Global, request: Request) -> Result<Asked, Status>
    ensures ok { IfOk result (λ made. asked.asked_for request ≡ Ok made) }
    ensures err { IfErr result (λ status. IsRefusal (asked.asked_for request) status) }
    ensures refusal { IfErr result (λ status. is_words_refusal status ≡ true) }
{
    match mode_of(&request) {
        Mode::Run => Ok(run_asked(run_of(request))),
        Mode::Environment => Ok(environment_of(request)),
        Mode::Versions => Ok(reading_of(ReadMode::Versions, request)),
        Mode::Parse => Ok(reading_of(ReadMode::Parse, request)),
        Mode::Dry => Ok(plan_of(request)),
        Mode::Sample(size) => Ok(Asked::Sample(size)),
    }
}

/// What the words ask for.
///
/// # Errors
/// `Usage` where the words have no reading, `OutOfMemory`.
#[tactic(auto, unfolding(answer_model::specs::Asked::asked_of))]
pub fn asked_of(alloc: Global, words: &[Text]) -> Result<Asked, Status>
    ensures ok { IfOk result (λ made. asked.asked_of words.now ≡ Ok made) }
    ensures err { IfErr result (λ status. IsRefusal (asked.asked_of words.now) status) }
    ensures refusal { IfErr result (λ status. is_words_refusal status ≡ true) }
{
    match read_words(alloc, words) {
        Ok(request) => asked_for(alloc, request),
        Err(WordsFault::Usage) => Err(Status::Usage),
        Err(WordsFault::Memory) => Err(Status::OutOfMemory),
    }
}
