ghost use Rattle.std.specs.Prelude.{◌≡◌, ◌≤◌, length, IsTrue, ◌↔◌};
ghost use Rattle.bk_tx.specs.Spelling.{kind_of, body_text, BodyFits};
ghost use Rattle.bk_tx.specs.Reading.{pays};

use crate::payments::Payments;

/// What a transaction does.
#[derive(Debug, Drop)]
pub enum Body {
    /// Pays the receiver the amount.
    Pay {
        to: u64,
        amount: u64,
    },
    /// Pays the receiver the amount if the guard's balance is at least `min`.
    PayIf {
        to: u64,
        amount: u64,
        guard: u64,
        min: u64,
    },
    /// Pays the receiver all that the sender has above `keep`, and nothing where it has less.
    Sweep {
        to: u64,
        keep: u64,
    },
    /// Pays each receiver its amount: 1 to 6 receivers, by ascending id.
    Split {
        payments: Payments,
    },
}

impl Body {
    /// The same body again.
    pub fn copy(&self) -> Body
        ensures { result ≡ self.now }
    {
        match self {
            Body::Pay { to, amount } => Body::Pay {
                to: *to,
                amount: *amount,
            },
            Body::PayIf {
                to,
                amount,
                guard,
                min,
            } => Body::PayIf {
                to: *to,
                amount: *amount,
                guard: *guard,
                min: *min,
            },
            Body::Sweep { to, keep } => Body::Sweep {
                to: *to,
                keep: *keep,
            },
            Body::Split { payments } => Body::Split {
                payments: payments.copy(),
            },
        }
    }

    // Whether its payments are those that a split can make.
    pub(crate) fn is_sound(&self) -> bool
        ensures { IsTrue result ↔ BodyFits self.now }
    {
        match self {
            // Numbers are read so that the proof has their bounds.
            Body::Pay { to, amount } => {
                let (_to, _amount) = (*to, *amount);
                true
            }
            Body::PayIf {
                to,
                amount,
                guard,
                min,
            } => {
                let (_to, _amount, _guard, _min) = (*to, *amount, *guard, *min);
                true
            }
            Body::Sweep { to, keep } => {
                let (_to, _keep) = (*to, *keep);
                true
            }
            Body::Split { payments } => {
                !payments.as_slice().is_empty() && payments.is_ascending()
            }
        }
    }

    // Whether it pays this account.
    pub(crate) fn pays(&self, id: u64) -> bool
        ensures { result ≡ pays self.now id }
    {
        match self {
            Body::Pay { to, .. } | Body::PayIf { to, .. } | Body::Sweep { to, .. } => *to == id,
            Body::Split { payments } => payments.pay(id),
        }
    }

    // The number of its kind.
    pub(crate) fn kind(&self) -> u8
        ensures { result ≡ kind_of self.now }
    {
        match self {
            Body::Pay { .. } => 1,
            Body::PayIf { .. } => 2,
            Body::Sweep { .. } => 3,
            Body::Split { .. } => 4,
        }
    }

    // How many bytes its fields take.
    pub(crate) fn text_len(&self) -> usize
        ensures len { result ≡ length (body_text self.now) }
        ensures short { result ≤ 97 }
    {
        match self {
            Body::Pay { .. } | Body::Sweep { .. } => 16,
            Body::PayIf { .. } => 32,
            Body::Split { payments } => 1 + 16 * payments.as_slice().len(),
        }
    }
}
