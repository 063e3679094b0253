//! The job of each command, with the values of its arguments.

ghost use Rattle.std.specs.Prelude.{◌≡◌, Some};
ghost use Rattle.bk_cli.specs.CommandLine.{job_of, rows_job, table_job, view_of, waits_in_vain};
ghost use Rattle.bk_cli.specs.declared.job.Job.TheVariants as job;

use crate::args::Args;
use crate::job::{Job, names_input};
use crate::verb::Verb;
use crate::view::{Diagnosis, Table, View};
use bk_base::Workers;
use bk_results::Query;

// What is shown where all rows of a table are.
fn whole(shown: Table) -> View
    ensures { result ≡ view_of shown }
{
    match shown {
        Table::Transactions => View::Transactions,
        Table::Postings => View::Postings,
    }
}

// The job of a table at the end of its feed.
fn rows_job(shown: Table, workers: Workers, accounts: Option<String>, file: Option<String>) -> Job
    ensures { result ≡ rows_job shown workers accounts file }
{
    match accounts {
        Some(accounts) => Job::Pick {
            workers,
            shown,
            accounts,
            file,
        },
        None => Job::Show {
            workers,
            shown: whole(shown),
            file,
        },
    }
}

// Whether more would be waited for where no file can grow.
fn waits_in_vain(args: &Args) -> bool
    ensures { result ≡ waits_in_vain args.now }
{
    args.wait && (!args.follow || names_input(args.file.as_deref()))
}

// The job of a table; there is none where it would wait in vain.
fn table_job(shown: Table, args: Args) -> Option<Job>
    ensures { result ≡ table_job shown args }
{
    if waits_in_vain(&args) {
        return None;
    }
    let workers = args.workers.unwrap_or(Workers::one());
    if args.follow {
        return Some(Job::Follow {
            workers,
            shown,
            accounts: args.accounts,
            wait: args.wait,
            file: args.file,
        });
    }
    Some(rows_job(shown, workers, args.accounts, args.file))
}

// The job of a query for which one thread executes.
fn ask_one(asked: Query, file: Option<String>) -> Option<Job>
    ensures { result ≡ Some (job.Ask 1 asked file) }
{
    Some(Job::Ask {
        workers: Workers::one(),
        asked,
        file,
    })
}

/// The job of a command with these values. There is none where a ROOT has to be a digest and is not, where the value of
/// `--links` is none of its words, and where `--wait` is given and no file can grow.
pub(crate) fn job_of(verb: Verb, args: Args) -> Option<Job>
    ensures { result ≡ job_of verb args }
{
    let workers = args.workers.unwrap_or(Workers::one());
    match verb {
        Verb::Run => Some(Job::Run {
            workers,
            file: args.file,
        }),
        Verb::Make => Some(Job::Make { file: args.file }),
        Verb::Order => ask_one(Query::Order, args.file),
        Verb::Account => ask_one(Query::Account { id: args.id }, args.file),
        Verb::Receipt => ask_one(Query::Receipt { place: args.place }, args.file),
        Verb::Prove => ask_one(Query::Proof { id: args.id }, args.file),
        Verb::Frames => Some(Job::Frames { file: args.file }),
        Verb::Summary => Some(Job::Summary {
            workers,
            file: args.file,
        }),
        Verb::Anchors => ask_one(Query::Anchors, args.file),
        Verb::Dag => Some(Job::Dag {
            window: args.window?,
            file: args.file,
        }),
        Verb::Statement => Some(Job::Ask {
            workers,
            asked: Query::Statement { id: args.id },
            file: args.file,
        }),
        Verb::Transactions => table_job(Table::Transactions, args),
        Verb::Postings => table_job(Table::Postings, args),
        Verb::Batches => Some(Job::Show {
            workers: Workers::one(),
            shown: View::Batches,
            file: args.file,
        }),
        Verb::Waiting => Some(Job::Diagnose {
            sought: Diagnosis::Waiting,
            file: args.file,
        }),
        Verb::Missing => Some(Job::Diagnose {
            sought: Diagnosis::Missing,
            file: args.file,
        }),
        Verb::Evidence => Some(Job::Diagnose {
            sought: Diagnosis::Evidence,
            file: args.file,
        }),
        Verb::CheckProof => Some(Job::CheckProof {
            root: args.root,
            account: args.account,
            file: args.file,
        }),
        Verb::CheckState => Some(Job::Ask {
            workers,
            asked: Query::State { root: args.digest? },
            file: args.file,
        }),
        Verb::CheckReport => Some(Job::CheckReport {
            workers,
            report: args.report,
            file: args.file,
        }),
        Verb::Apply => Some(Job::Apply { file: args.file }),
        Verb::Schedule => Some(Job::Schedule {
            workers: args.workers.unwrap_or(Workers::two()),
            feed: args.feed,
            events: args.events,
        }),
        Verb::Compare => Some(Job::Compare {
            first: args.feed1,
            second: args.feed2,
        }),
        Verb::Link => Some(Job::Show {
            workers,
            shown: View::Link,
            file: args.file,
        }),
        Verb::CheckChain => Some(Job::CheckChain { file: args.file }),
    }
}
