//! Whether two Followers agree.

ghost use Rattle.std.specs.Prelude.{◌≡◌, ◌<◌, ◌↔◌, [], ◌∷◌, None, Some, length, slice_get, MatchOption, IfOk, IfErr, IsTrue};
ghost use Rattle.bk_follow.specs.Agreement.{FollowersAgree, FollowersDiffer};
ghost use Rattle.bk_follow.specs.Follower.{receipts_of_executed};
ghost use Rattle.bk_follow.specs.private.Comparing.{BooksAgree, BooksDiffer, BooksUnlike, HaveSameSetup, IsLesser};

use crate::book::Book;
use crate::differ::{Agreed, Differ, SetupPart, differing};
use crate::follower::Follower;
use bk_base::{Row, Version};
use bk_committee::Committee;

// The lesser of two numbers.
fn lesser(one: usize, other: usize) -> usize
    ensures { IsLesser result one other }
{
    if one <= other { one } else { other }
}

// Whether two versions are the same.
fn same_version(one: Version, other: Version) -> bool
    ensures { IsTrue result ↔ (one ≡ other) }
{
    one == other
}

// Whether two lists of weights are the same.
fn same_weights(one: &[u32], other: &[u32]) -> bool
    ensures { IsTrue result ↔ (one.now ≡ other.now) }
{
    *one == *other
}

// Whether two keys are the same.
fn same_key(one: &[u8; 32], other: &[u8; 32]) -> bool
    ensures { IsTrue result ↔ (one.now ≡ other.now) }
{
    *one == *other
}

// The fields of an account.
fn fields(row: &Row) -> [u64; 3]
    ensures { result ≡ row.now.id ∷ row.now.balance ∷ row.now.seq ∷ [] }
{
    [row.id, row.balance, row.seq]
}

// Whether two accounts have the same fields.
fn same_fields(one: &[u64; 3], other: &[u64; 3]) -> bool
    ensures { IsTrue result ↔ (one.now ≡ other.now) }
{
    *one == *other
}

// Whether two accounts are the same.
fn same_row(one: &Row, other: &Row) -> bool
    ensures { IsTrue result ↔ (one.now ≡ other.now) }
{
    same_fields(&fields(one), &fields(other))
}

// The account at a place.
fn row_at(rows: &[Row], place: usize) -> &Row
    requires { place < length rows.now }
    ensures { slice_get rows.now place ≡ Some result.now }
{
    &rows[place]
}

// Whether two lists of accounts are the same.
fn same_rows(one: &[Row], other: &[Row]) -> bool
    ensures { IsTrue result ↔ (one.now ≡ other.now) }
{
    if one.len() != other.len() {
        return false;
    }
    for place in 0..one.len() {
        if !same_row(row_at(one, place), row_at(other, place)) {
            return false;
        }
    }
    true
}

// Whether two committees have the same keys.
fn same_keys(one: &Committee, other: &Committee) -> bool
    ensures { IsTrue result ↔ (one.now.keys ≡ other.now.keys) }
{
    if one.n() != other.n() {
        return false;
    }
    for member in 0..one.n() {
        if !same_key(one.key(member), other.key(member)) {
            return false;
        }
    }
    true
}

// Whether two committees are the same: version, keys and weights.
fn same_committee(one: &Committee, other: &Committee) -> bool
    ensures { IsTrue result ↔ (one.now ≡ other.now) }
{
    if !same_version(one.version(), other.version()) {
        return false;
    }
    if !same_weights(one.weights(), other.weights()) {
        return false;
    }
    same_keys(one, other)
}

impl Book {
    // The first part in which the setups of both differ, none where they have one setup.
    fn setup_unlike(&self, other: &Book) -> Option<SetupPart>
        ensures { MatchOption result (HaveSameSetup self.now other.now) (BooksUnlike self.now other.now) }
    {
        let one = self.intake.committee();
        let two = other.intake.committee();
        if !same_version(one.version(), two.version()) {
            return Some(SetupPart::Version);
        }
        if !same_committee(one, two) {
            return Some(SetupPart::Committee);
        }
        if !same_rows(&self.opening, &other.opening) {
            return Some(SetupPart::Accounts);
        }
        None
    }

    // How many places were executed.
    fn places(&self) -> usize
        ensures { result ≡ length (receipts_of_executed self.now.executed) }
    {
        match &self.ledger {
            Some(ledger) => ledger.receipts().len(),
            None => 0,
        }
    }

    // Compares what was taken and executed.
    fn compare(&self, other: &Book) -> Result<Agreed, Differ>
        ensures agree { IfOk result (BooksAgree self.now other.now) }
        ensures differ { IfErr result (BooksDiffer self.now other.now) }
    {
        if let Some(part) = self.setup_unlike(other) {
            return Err(Differ::Setup { part });
        }
        if let Some(stop) = self.intake.stop_with(&other.intake)? {
            return Err(differing(stop));
        }
        let first = self.intake.count_ordered()?;
        let second = other.intake.count_ordered()?;
        let certs = lesser(first, second);
        let places = lesser(self.places(), other.places());
        Ok(Agreed { certs, places })
    }
}

impl Follower {
    /// Compares the orders of the whole frames so far of two Followers, and what was executed up to their last settles.
    /// Neither changes.
    ///
    /// Where both have one version, committee and genesis and their frames together have neither a collision nor twins,
    /// the order of one begins that of the other and so do the receipts: the answer says how far. It takes time and
    /// memory for a table of the certificates of both, and for the order of a Follower whose order was not settled since
    /// its last frame.
    pub fn compare(&self, other: &Follower) -> Result<Agreed, Differ>
        requires one { self.now.fault ≡ None }
        requires other { other.now.fault ≡ None }
        ensures agree { IfOk result (FollowersAgree self.now other.now) }
        ensures differ { IfErr result (FollowersDiffer self.now other.now) }
    {
        let absent = Differ::Setup {
            part: SetupPart::Absent,
        };
        let Some(one) = &self.gathered.opened.book else {
            return Err(absent);
        };
        let Some(two) = &other.gathered.opened.book else {
            return Err(absent);
        };
        let agreed = one.compare(two)?;
        Ok(agreed)
    }
}
