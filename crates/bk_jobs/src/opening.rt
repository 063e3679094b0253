//! Opens the files that a job names.

ghost use Rattle.std.specs.Prelude.{◌≡◌, Some, None, true, false, is_some, IfErr, IfOk, IfSome, OnErr, OnOk, option_map};
ghost use Rattle.std.specs.IoError.{error_kind};
ghost use Rattle.bk_frames.specs.Device.{CanBeUsed};
ghost use Rattle.bk_cli.specs.FaultLines.{Reports};
ghost use Rattle.bk_cli.specs.Files.{file_of, is_input, names_input, reads_beside, reads_input_twice, second_file_of};
ghost use Rattle.bk_cli.specs.Unopened.{told_unopened};
ghost use Rattle.bk_jobs.specs.Openings.{IsFirst, IsFirstReady, IsLacking, IsOf, IsSecondReady, IsUnopened, Ran, reason_by};
ghost use Rattle.bk_jobs.specs.Reads.{IsLeft, IsThere, device_of, first_device, input_device, names_file, second_device, sight};
ghost use Rattle.bk_jobs.specs.private.Opened.{names_input_second};
ghost use Rattle.bk_jobs.specs.Sources.{CanBeUsedAgain};

use crate::inputs::{Access, Opens, Stream};
use crate::over::run_ready;
use bk_cli::{Exit, Job, Line, Unopened, is_input, tell_unopened};
use bk_frames::{Sink, Source};
use bk_progress::Progress;
use std::io;
use std::random::RandomSource;
use std::sync::Wait;
use std::thread::Threads;
use std::time::Clock;

// A file that could not be opened.
#[derive(Drop)]
struct Missing<'a> {
    path: &'a str,
    error: io::Error,
}

// Why the system did not open a file, as far as it says it.
fn reason_of(error: &io::Error) -> Unopened
    ensures { result ≡ reason_by (error_kind error.now) }
{
    match error.kind() {
        io::ErrorKind::NotFound => Unopened::Absent,
        io::ErrorKind::PermissionDenied => Unopened::Denied,
        _ => Unopened::Other,
    }
}

// Reports a file that cannot be opened.
fn not_opened<E: Sink>(line: &Line, missing: &Missing<'_>, err: &mut E) -> Exit
    requires err { CanBeUsed (E.state err.old) }
    ensures failed { result ≡ Exit.Failed }
    ensures told { Reports (told_unopened line.now.notes.verbose missing.now.path.now
        (reason_by (error_kind missing.now.error))) (E.state err.old) (E.state err.new) }
{
    let why = reason_of(&missing.error);
    tell_unopened(missing.path, line.notes.verbose, why, err);
    Exit::Failed
}

// Whether the end of the first file is waited at for more. How many bytes such a file has is not known.
fn is_waited(job: &Job) -> bool {
    match job {
        Job::Follow { wait, .. } => *wait,
        _ => false,
    }
}

/// Takes what is there.
pub(crate) fn taken<T>(from: &mut Option<T>) -> T
    requires { is_some from.old ≡ true }
    ensures gives { from.old ≡ Some result }
    ensures leaves { from.new ≡ None }
{
    let Some(found) = from.take() else {
        unreachable!()
    };
    found
}

// A file of a job that was opened, or standard input in its place, and how many bytes it has, where that is known.
type Opened<F, I> = (Stream<F, I>, Option<u64>);

// Opens the file of a path, or takes standard input where the path stands for that.
fn open_path<N: Opens, I: Source>(
    opener: &mut Option<N>,
    path: &str,
    input: &mut Option<I>,
) -> Result<Opened<N::File, I>, io::Error>
    requires opener { is_some opener.old ≡ true }
    requires there { is_input path.now ≡ true → is_some input.old ≡ true }
    ensures opened { IfOk result (λ o. IsOf (is_input path.now) N.holds
        (option_map I.state input.old) path.now (device_of N.File.state I.state o.0)) }
    ensures unopened { IfErr result (λ e. IsLacking N.lacks path.now (error_kind e)) }
    ensures kept { is_input path.now ≡ false → input.new ≡ input.old }
    ensures unused { is_input path.now ≡ true → opener.new ≡ opener.old }
{
    if is_input(path) {
        return Ok((Stream::Input(taken(input)), None));
    }
    match taken(opener).open(path) {
        Ok((file, size)) => Ok((Stream::File(file), size)),
        Err(error) => Err(error),
    }
}

// Opens the first file of a job, or takes standard input where it names none.
fn open_first<'a, N: Opens, I: Source>(
    opener: &mut Option<N>,
    job: &'a Job,
    input: &mut Option<I>,
) -> Result<Opened<N::File, I>, Missing<'a>>
    requires opener { is_some opener.old ≡ true }
    requires there { names_input (file_of job.now) ≡ true → is_some input.old ≡ true }
    ensures opened { IfOk result (λ o. IsFirst N.holds (option_map I.state input.old)
        (file_of job.now) (device_of N.File.state I.state o.0)) }
    ensures missing { IfErr result (λ m. (file_of job.now ≡ Some m.path.now)
        × IsLacking N.lacks m.path.now (error_kind m.error)) }
    ensures kept { names_input (file_of job.now) ≡ false → input.new ≡ input.old }
    ensures unused { names_file (file_of job.now) ≡ false → opener.new ≡ opener.old }
{
    match job.file() {
        Some(path) => match open_path(opener, path, input) {
            Ok(opened) => Ok(opened),
            Err(error) => Err(Missing { path, error }),
        },
        None => Ok((Stream::Input(taken(input)), None)),
    }
}

// Makes the first file of a job ready, and counts its bytes as going to be read.
fn ready_first<'a, N: Opens, I: Source + Drop, P>(
    access: &mut Access<N, N::File, I>,
    job: &'a Job,
    progress: &Progress<'_, P>,
) -> Result<(), Missing<'a>>
where
    P: Clock + Eprint,
    requires opener { is_some access.old.first ≡ true }
    requires there { names_input (file_of job.now) ≡ true → is_some access.old.input ≡ true }
    ensures ready { OnOk result (IsFirstReady
        (sight N.holds N.lacks N.File.state I.state) access.old job.now
        (first_device (sight N.holds N.lacks N.File.state I.state) access.new)) }
    ensures missing { IfErr result (λ m. (file_of job.now ≡ Some m.path.now)
        × IsLacking N.lacks m.path.now (error_kind m.error)) }
    ensures none { OnErr result (access.new.first_read ≡ access.old.first_read) }
    ensures second { access.new.second ≡ access.old.second }
    ensures second_read { access.new.second_read ≡ access.old.second_read }
    ensures kept { names_input (file_of job.now) ≡ false → access.new.input ≡ access.old.input }
    ensures unused { names_file (file_of job.now) ≡ false → access.new.first ≡ access.old.first }
{
    let (source, size) = open_first(&mut access.first, job, &mut access.input)?;
    access.first_read = Some(source);
    progress.expect(if is_waited(job) { None } else { size });
    Ok(())
}

// Makes the second file of a job ready, where it names one, and counts its bytes as going to be read.
fn ready_second<'a, N: Opens, I: Source + Drop, P>(
    access: &mut Access<N, N::File, I>,
    job: &'a Job,
    progress: &Progress<'_, P>,
) -> Result<(), Missing<'a>>
where
    P: Clock + Eprint,
    requires opener { is_some access.old.second ≡ true }
    requires there { names_input_second job.now ≡ true → is_some access.old.input ≡ true }
    requires none { access.old.second_read ≡ None }
    ensures ready { OnOk result (IsSecondReady
        (sight N.holds N.lacks N.File.state I.state) access.old job.now
        (second_device (sight N.holds N.lacks N.File.state I.state) access.new)) }
    ensures missing { IfErr result (λ m. (second_file_of job.now ≡ Some m.path.now)
        × IsLacking N.lacks m.path.now (error_kind m.error)) }
    ensures none { OnErr result (access.new.second_read ≡ None) }
    ensures first { access.new.first ≡ access.old.first }
    ensures first_read { access.new.first_read ≡ access.old.first_read }
    ensures kept { names_input_second job.now ≡ false → access.new.input ≡ access.old.input }
    ensures unused { names_file (second_file_of job.now) ≡ false
        → access.new.second ≡ access.old.second }
{
    let Some(path) = job.second_file() else {
        return Ok(());
    };
    match open_path(&mut access.second, path, &mut access.input) {
        Ok((source, size)) => {
            access.second_read = Some(source);
            progress.expect(size);
            Ok(())
        }
        Err(error) => Err(Missing { path, error }),
    }
}

// Whether the second file of a job is a text beside a feed. It is named first, and opened first.
fn is_beside(job: &Job) -> bool
    ensures { result ≡ reads_beside job.now }
{
    match job {
        Job::CheckReport { .. } | Job::Pick { .. } | Job::Follow { .. } => true,
        _ => false,
    }
}

// Makes the files of a job ready, each to be read from its beginning on.
fn ready_both<'a, N: Opens, I: Source + Drop, P>(
    access: &mut Access<N, N::File, I>,
    job: &'a Job,
    progress: &Progress<'_, P>,
) -> Result<(), Missing<'a>>
where
    P: Clock + Eprint,
    requires once { reads_input_twice job.now ≡ false }
    requires there { IsThere access.old }
    ensures first { OnOk result (IsFirstReady
        (sight N.holds N.lacks N.File.state I.state) access.old job.now
        (first_device (sight N.holds N.lacks N.File.state I.state) access.new)) }
    ensures second { OnOk result (IsSecondReady
        (sight N.holds N.lacks N.File.state I.state) access.old job.now
        (second_device (sight N.holds N.lacks N.File.state I.state) access.new)) }
    ensures missing { IfErr result (λ m. IsUnopened (sight N.holds N.lacks N.File.state I.state)
        access.old access.new job.now m.path.now (error_kind m.error)) }
    ensures left { IsLeft job.now access.old access.new }
{
    if is_beside(job) {
        ready_second(access, job, progress)?;
        return ready_first(access, job, progress);
    }
    ready_first(access, job, progress)?;
    ready_second(access, job, progress)
}

/// Opens what the job names and runs it over that, from its beginning on, watched by `progress`.
///
/// Standard input is read where no file is named, or `-`; a job reads it once at most. What the job has no use for is
/// left in `access`, and so is what its files were read through. A file that cannot be opened ends with `Failed` and `read
/// failed`. An end that is no answer has the line of its fault on `err`, and where the notes are verbose one more line in
/// words; an answer to a query or of a comparison has a line then for each missing batch at which an order stops.
pub fn open_and_run<N, I, R, P, O: Sink, E: Sink>(
    access: &mut Access<N, N::File, I>,
    rt: &R,
    line: &Line,
    progress: &Progress<'_, P>,
    out: &mut O,
    err: &mut E,
) -> Exit
where
    N: Opens,
    I: Source + Drop,
    R: AllocGlobal + Clock + RandomSource + Threads + Wait + Sync,
    P: Clock + Eprint + Sync,
    requires once { reads_input_twice line.now.job ≡ false }
    requires there { IsThere access.old }
    requires input { IfSome (input_device (sight N.holds N.lacks N.File.state I.state) access.old)
        CanBeUsed }
    requires out { CanBeUsed (O.state out.old) }
    requires err { CanBeUsedAgain (E.state err.old) }
    ensures left { IsLeft line.now.job access.old access.new }
    ensures ran { Ran (sight N.holds N.lacks N.File.state I.state) access.old access.new
        line.now.job line.now.strict line.now.notes.verbose result
        (O.state out.old) (O.state out.new) (E.state err.old) (E.state err.new) }
{
    match ready_both(access, &line.job, progress) {
        Ok(()) => run_ready(access, rt, line, progress, out, err),
        Err(missing) => not_opened(line, &missing, err),
    }
}
