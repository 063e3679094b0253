//! How many comparisons came out right.

ghost use Rattle.std.specs.Prelude.{◌≡◌, IsTrue, IsFalse, IsOk, IfOk, OnErr};
ghost use Rattle.bk_trial_kit.specs.Tallies.{one_more_passed, one_more_failed};

use anyhow::{Result, bail};

/// How many comparisons came out as they have to, and how many did not.
#[derive(Clone, Copy, Debug)]
pub struct Tally {
    pub passed: u64,
    pub failed: u64,
}

impl Tally {
    /// None yet.
    pub fn new() -> Tally
        ensures { result ≡ record { passed = 0; failed = 0 } }
    {
        Tally {
            passed: 0,
            failed: 0,
        }
    }

    /// Counts a comparison.
    pub fn count(&mut self, is_right: bool)
        ensures right { IsTrue is_right → self.new ≡ one_more_passed self.old }
        ensures wrong { IsFalse is_right → self.new ≡ one_more_failed self.old }
    {
        if is_right {
            self.passed = self.passed.saturating_add(1);
        } else {
            self.failed = self.failed.saturating_add(1);
        }
    }

    /// Counts a comparison, and prints on standard error which one failed. It returns no error: with a `?` each call
    /// would be one more exit at which all values of the caller are dropped, and the proof lists each of these steps.
    pub fn note<R: Eprint>(&mut self, rt: &R, what: &str, is_right: bool)
        ensures right { IsTrue is_right → self.new ≡ one_more_passed self.old }
        ensures wrong { IsFalse is_right → self.new ≡ one_more_failed self.old }
    {
        self.count(is_right);
        if !is_right {
            let _ = eprintln!(rt; "failed: {what}");
        }
    }

    /// Counts as failed what could not be made, as where memory ran out.
    pub fn miss<R: Eprint>(&mut self, rt: &R)
        ensures { self.new ≡ one_more_failed self.old }
    {
        self.note(rt, "something could not be made", false);
    }

    /// Counts a comparison that failed too if it ended in an error. So its caller has no exit for that.
    pub fn judge<R: Eprint>(&mut self, rt: &R, what: &str, judged: Result<bool>)
        ensures right { IfOk judged (λ is_right. IsTrue is_right → self.new ≡ one_more_passed self.old) }
        ensures wrong { IfOk judged (λ is_right. IsFalse is_right → self.new ≡ one_more_failed self.old) }
        ensures error { OnErr judged (self.new ≡ one_more_failed self.old) }
    {
        self.note(rt, what, judged.unwrap_or(false));
    }

    /// Prints the last line of a program, `N passed, M failed`. It is an error if a comparison failed.
    pub fn report<R: Print>(self, rt: &R) -> Result<()>
        ensures { IsOk result → self.failed ≡ 0 }
    {
        println!(rt; "{} passed, {} failed", self.passed, self.failed)?;
        if self.failed > 0 {
            bail!("trials failed");
        }
        Ok(())
    }
}
