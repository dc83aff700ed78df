// What files say that were read before a store is opened.
ghost use Rattle.std.specs.Prelude.{◌≡◌, IfOk, IfSome};
ghost use Rattle.store_opening.specs.Survey.{IsSurveyOf};

use crate::judging::{Survey, survey_of};
use sstate_objects::same_entries;
use std::alloc::Global;
use std::marker::Model;
use std::sync::Mutex;
use tree_model::{Entry, Mem, Text};

/// What some files under `rec2/` and under `key/` say, wherever they are all that stands there. Contracts see the files, and what they say.
#[derive(Drop)]
pub struct Known {
    files: Vec<(Text, Entry)>,
    keys: Vec<(Text, Entry)>,
    survey: Survey,
}

impl Model for Known {
    ghost use Rattle.store_opening.specs.declared.judging.Survey.{Survey as ASurvey};
    ghost use Rattle.store_opening.specs.Survey.{HeldFile, IsSurveyOf};
    ghost use Rattle.std.specs.Prelude.{List};

    ghost Value = { List HeldFile × (List HeldFile × ASurvey) };

    ghost view = { λ k. (k.files.items, (k.keys.items, k.survey)) };

    ghost invariant = { λ k. IsSurveyOf k.files.items k.keys.items k.survey.index k.survey.doomed.items k.survey.bare.items };
}

impl Known {
    /// Works out what these files say: those under `rec2/`, and those under `key/`, each in the order of their paths.
    pub fn of_files(
        alloc: Global,
        files: Vec<(Text, Entry)>,
        keys: Vec<(Text, Entry)>,
    ) -> Result<Known, Mem>
        ensures files { IfOk result (λ known. known.0 ≡ files.items) }
        ensures keys { IfOk result (λ known. known.1.0 ≡ keys.items) }
    {
        let survey = survey_of(alloc, &files, &keys)?;
        Ok(Known {
            files,
            keys,
            survey,
        })
    }
}

/// What is known, where it is of these files.
fn survey_in(known: Known, files: &[(Text, Entry)], keys: &[(Text, Entry)]) -> Option<Survey>
    ensures { IfSome result (λ survey. IsSurveyOf files.now keys.now survey.index survey.doomed.items survey.bare.items) }
{
    if same_entries(known.files.as_slice(), files) && same_entries(known.keys.as_slice(), keys) {
        return Some(known.survey);
    }
    None
}

/// Where one thread leaves what it knows of files for another, which opens a store: that one reads each file all the same, and takes
/// what is known only where it read just these files. So no clause speaks of what was left. Nobody waits; what isn't there in time the
/// other works out by itself.
#[derive(Drop)]
pub struct Ahead {
    known: Mutex<Option<Known>>,
}

impl Ahead {
    /// Nothing.
    pub fn none() -> Ahead {
        Ahead {
            known: Mutex::new(None),
        }
    }

    /// Leaves what is known of the files under `rec2/` and `key/`.
    pub fn put(&self, known: Known) {
        if let Some(mut place) = self.known.try_lock() {
            *place = Some(known);
        }
    }

    /// Takes what is known of these files, where that is there.
    pub(crate) fn survey_of(
        &self,
        files: &[(Text, Entry)],
        keys: &[(Text, Entry)],
    ) -> Option<Survey>
        ensures { IfSome result (λ survey. IsSurveyOf files.now keys.now survey.index survey.doomed.items survey.bare.items) }
    {
        let mut place = self.known.try_lock()?;
        survey_in(place.take()?, files, keys)
    }
}
