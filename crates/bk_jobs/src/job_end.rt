//! How a job ends that has an answer, and on which terms it answers.

ghost use Rattle.std.specs.Prelude.{◌≡◌};
ghost use Rattle.bk_jobs.specs.Endings.{end_with};

use bk_base::Workers;
use bk_cli::{Exit, JobFault, Remarks};
use bk_follow::Settings;
use bk_order::HashKey;
use bk_results::Flaw;

/// How a job ends that has an answer.
#[derive(Clone, Copy)]
pub struct JobEnd {
    /// The exit of the program.
    pub exit: Exit,
    /// What a query asks for and the feed does not have, as the fault that says so.
    pub absent: Option<JobFault>,
    /// What is to be said beside an answer: at which missing batches the orders of the feeds stop, or of frames whose tag
    /// is wrong.
    pub remarks: Remarks,
    /// What keeps the feed from counting whole; `None` where nothing does, and where it is not asked for.
    pub flaw: Option<Flaw>,
}

impl JobEnd {
    /// With this exit, and nothing to be said but what keeps the feed from counting whole.
    pub(crate) fn with(exit: Exit, flaw: Option<Flaw>) -> JobEnd
        ensures { result ≡ end_with exit flaw }
    {
        JobEnd {
            exit,
            absent: None,
            remarks: Remarks::none(),
            flaw,
        }
    }
}

/// Whether the feed of a job is judged, and the key of the tables by digest.
#[derive(Clone, Copy)]
pub(crate) struct Terms {
    pub(crate) strict: bool,
    pub(crate) key: HashKey,
}

/// What executes batches, and on which terms.
#[derive(Drop)]
pub(crate) struct Engine<'a, G> {
    pub(crate) terms: Terms,
    /// How many threads execute.
    pub(crate) workers: Workers,
    /// What they call between their steps.
    pub(crate) gate: &'a G,
}

impl<G> Engine<'_, G> {
    /// How it follows a feed.
    pub(crate) fn settings(&self) -> Settings {
        Settings {
            workers: self.workers,
            key: self.terms.key,
        }
    }
}
