//! What the command line asks for.

ghost use Rattle.std.specs.Prelude.{◌≡◌, option_map, if◌then◌else◌, None, Some};
ghost use Rattle.bk_cli.specs.Files.{file_of, is_input, names_input, reads_input, reads_input_twice, second_file_of};

use crate::view::{Diagnosis, Table, View};
use crate::window::Window;
use bk_base::Workers;
use bk_results::Query;

/// What the program is to do. A `file` is a path; standard input is read where there is none, and where a path is `-`.
#[derive(Drop)]
pub enum Job {
    /// Finds the committed order of a feed, executes its batches and writes the report of the run.
    Run {
        /// How many threads execute.
        workers: Workers,
        file: Option<String>,
    },
    /// Writes the feed that a script makes.
    Make {
        file: Option<String>,
    },
    /// Writes whether a text is a proof of an account in a state.
    CheckProof {
        /// The digest of the state, as the words have it.
        root: String,
        /// The account that it has to be of, where one is named.
        account: Option<u64>,
        file: Option<String>,
    },
    /// Writes whether a text is the report of a feed.
    CheckReport {
        /// How many threads execute.
        workers: Workers,
        /// The path of the text.
        report: String,
        file: Option<String>,
    },
    /// Writes the reply of a feed to a query.
    Ask {
        /// How many threads execute.
        workers: Workers,
        /// What is asked.
        asked: Query,
        file: Option<String>,
    },
    /// Writes a line for each frame of a feed.
    Frames {
        file: Option<String>,
    },
    /// Finds the committed order of a feed, executes its batches and writes the summary of the feed.
    Summary {
        /// How many threads execute.
        workers: Workers,
        file: Option<String>,
    },
    /// Draws the certificates of some rounds of a feed.
    Dag {
        /// The rounds.
        window: Window,
        file: Option<String>,
    },
    /// Executes the batches of a feed in feed order and writes the apply report.
    Apply {
        file: Option<String>,
    },
    /// Executes the batches of a feed by the events of a list, and writes the apply report.
    Schedule {
        /// How many workers the events are among.
        workers: Workers,
        /// The path of the feed.
        feed: String,
        /// The path of the list.
        events: String,
    },
    /// Writes how far the orders of two feeds agree.
    Compare {
        /// The path of the feed that is read first.
        first: String,
        /// The path of the other.
        second: String,
    },
    /// Writes a table of a feed, or the line that links it to others.
    Show {
        /// How many threads execute.
        workers: Workers,
        /// What is shown.
        shown: View,
        file: Option<String>,
    },
    /// Writes the rows of a table that have an account of a list.
    Pick {
        /// How many threads execute.
        workers: Workers,
        /// The table.
        shown: Table,
        /// The path of the list.
        accounts: String,
        file: Option<String>,
    },
    /// Writes the rows of a table of a feed as they become final, while the feed comes.
    Follow {
        /// How many threads execute.
        workers: Workers,
        /// The table.
        shown: Table,
        /// The path of the list of accounts, where not all rows are written.
        accounts: Option<String>,
        /// Whether more is waited for at the end of the file.
        wait: bool,
        file: Option<String>,
    },
    /// Writes what is wrong with a feed.
    Diagnose {
        /// What is looked for.
        sought: Diagnosis,
        file: Option<String>,
    },
    /// Writes whether lines are the links of feeds that are one ledger.
    CheckChain {
        file: Option<String>,
    },
}

impl Job {
    /// The path of the feed, of the script, of the proof or of the links, where one is named; of two feeds that of the first.
    pub fn file(&self) -> Option<&str>
        ensures { option_map (λ s. s.now) result ≡ file_of self.now }
    {
        match self {
            Job::Run { file, .. }
            | Job::Make { file }
            | Job::CheckProof { file, .. }
            | Job::CheckReport { file, .. }
            | Job::Ask { file, .. }
            | Job::Frames { file }
            | Job::Summary { file, .. }
            | Job::Dag { file, .. }
            | Job::Apply { file }
            | Job::Show { file, .. }
            | Job::Pick { file, .. }
            | Job::Follow { file, .. }
            | Job::Diagnose { file, .. }
            | Job::CheckChain { file } => file.as_deref(),
            Job::Schedule { feed, .. } => Some(feed.as_str()),
            Job::Compare { first, .. } => Some(first.as_str()),
        }
    }

    /// The path of the other file that is read, where there is one: the text that is said to be a report, a list of events or
    /// of accounts, or a second feed.
    pub fn second_file(&self) -> Option<&str>
        ensures { option_map (λ s. s.now) result ≡ second_file_of self.now }
    {
        match self {
            Job::CheckReport { report, .. } => Some(report.as_str()),
            Job::Schedule { events, .. } => Some(events.as_str()),
            Job::Compare { second, .. } => Some(second.as_str()),
            Job::Pick { accounts, .. } => Some(accounts.as_str()),
            Job::Follow { accounts, .. } => accounts.as_deref(),
            _ => None,
        }
    }

    /// Whether standard input is read in place of a file.
    pub fn reads_input(&self) -> bool
        ensures { result ≡ reads_input self.now }
    {
        let first = names_input(self.file());
        let second = match self.second_file() {
            Some(path) => is_input(path),
            None => false,
        };
        first || second
    }

    // Whether standard input would be read in place of both files.
    fn reads_input_twice(&self) -> bool
        ensures { result ≡ reads_input_twice self.now }
    {
        let first = names_input(self.file());
        let second = match self.second_file() {
            Some(path) => is_input(path),
            None => false,
        };
        first && second
    }

    // Gives its memory back. A caller that ends with this call need not go through all that a job holds in its own proof.
    fn discard(self) {
        drop(self);
    }
}

/// Whether standard input is read in place of a file.
pub(crate) fn names_input(path: Option<&str>) -> bool
    ensures { result ≡ names_input (option_map (λ s. s.now) path.entry) }
{
    match path {
        Some(path) => is_input(path),
        None => true,
    }
}

/// Whether a path stands for standard input.
pub fn is_input(path: &str) -> bool
    ensures { result ≡ is_input path.now }
{
    path == "-"
}

/// The job, where it reads standard input in place of one file at most.
pub(crate) fn sole(job: Job) -> Option<Job>
    ensures { result ≡ (if reads_input_twice job then None else Some job) }
{
    if job.reads_input_twice() {
        job.discard();
        return None;
    }
    Some(job)
}
