//! The order of what a Follower has so far.

ghost use Rattle.std.specs.Prelude.{◌≡◌, None, Err, OnOk, IfOk, IfErr, IfSome};
ghost use Rattle.bk_base.specs.Feed.{FeedValue};
ghost use Rattle.bk_follow.specs.Finishing.{ClosesOrder, CloseOrderFails};
ghost use Rattle.bk_follow.specs.Ordering.{IsOrdered, FindsOrder, OrderFails, anchors_in, certs_in};
ghost use Rattle.bk_follow.specs.private.Books.{IsGoodBook};
ghost use Rattle.bk_follow.specs.private.Ordered.{BookOrderFails};

use crate::book::Book;
use crate::fault::{Fault, stopped};
use crate::follower::{Follower, latch_unless_stop};
use bk_cert::CertRef;

/// The order of the whole frames of a feed so far.
#[derive(Clone, Copy, Debug, PartialEq, Eq)]
pub struct Order<'a> {
    /// The committed anchors, oldest first.
    pub anchors: &'a [CertRef],
    /// The certificates in order.
    pub certs: &'a [CertRef],
}

impl Book {
    /// Settles the order of the frames so far, and executes nothing.
    pub(crate) fn settle_order(&mut self) -> Result<(), Fault>
        ensures order { OnOk result ((feed : FeedValue) → IsGoodBook feed self.old
            → IsOrdered feed self.new) }
        ensures executed { self.new.executed ≡ self.old.executed }
        ensures fault { IfErr result (λ f. BookOrderFails self.old self.new f) }
    {
        if let Some(stop) = self.intake.stop() {
            return Err(stopped(stop));
        }
        self.intake.settle()?;
        Ok(())
    }
}

impl Follower {
    /// Settles the order of the whole frames so far, and executes nothing.
    ///
    /// `Collision` or `Equivocation` where the frames so far are stopped: then everything is as it was.
    pub fn settle_order(&mut self) -> Result<(), Fault>
        ensures settled { OnOk result (FindsOrder self.old self.new
            (anchors_in self.new.book) (certs_in self.new.book)) }
        ensures works { OnOk result ((self.old.fault ≡ None) × (self.new.fault ≡ None)) }
        ensures again { IfSome self.old.fault (λ f. (result ≡ Err f) × (self.new ≡ self.old)) }
        ensures fault { IfErr result (λ f. self.old.fault ≡ None
            → OrderFails self.old self.new f) }
    {
        if let Some(fault) = self.fault {
            return Err(fault);
        }
        let Some(book) = &mut self.gathered.opened.book else {
            return Ok(());
        };
        match book.settle_order() {
            Ok(()) => Ok(()),
            Err(fault) => Err(latch_unless_stop(
                self.alloc,
                &mut self.gathered,
                &mut self.fault,
                fault,
            )),
        }
    }

    /// Settles the order of the feed that ends here, and executes nothing. After `Ok`, `Collision` or `Equivocation` it
    /// may go on.
    pub fn close_order(&mut self) -> Result<(), Fault>
        ensures closed { OnOk result (ClosesOrder self.old self.new) }
        ensures works { OnOk result ((self.old.fault ≡ None) × (self.new.fault ≡ None)) }
        ensures again { IfSome self.old.fault (λ f. (result ≡ Err f) × (self.new ≡ self.old)) }
        ensures fault { IfErr result (λ f. self.old.fault ≡ None
            → CloseOrderFails self.old self.new f) }
    {
        self.end_here()?;
        self.settle_order()?;
        Ok(())
    }

    /// The committed anchors and the certificates in order as they were settled last, by `settle`, `settle_order` or
    /// `close_order`. Both are empty before the genesis is whole.
    pub fn last_order(&self) -> Order<'_>
        ensures anchors { result.anchors.now ≡ anchors_in self.now.book }
        ensures certs { result.certs.now ≡ certs_in self.now.book }
    {
        match &self.gathered.opened.book {
            Some(book) => Order {
                anchors: book.intake.anchors(),
                certs: book.intake.order(),
            },
            None => Order {
                anchors: &[],
                certs: &[],
            },
        }
    }
}
