//! Committees, and what their members weigh.

use anyhow::{Result, bail};
use bk_base::Version;
use bk_committee::Committee;
use std::alloc::Global;

/// A committee by its weights. Member j has 32 bytes j + 1 as its key. In version One each member weighs 1.
#[derive(Clone, Copy)]
pub(crate) struct Members<'a> {
    pub(crate) version: Version,
    pub(crate) weights: &'a [u32],
}

/// A member for each number that a signer can have.
pub(crate) const EVERYBODY: Members<'static> = Members {
    version: Version::One,
    weights: &[1; 128],
};

/// A committee of version One.
pub(crate) fn heads(weights: &[u32]) -> Members<'_> {
    Members {
        version: Version::One,
        weights,
    }
}

/// A committee of version Two.
pub(crate) fn weighted(weights: &[u32]) -> Members<'_> {
    Members {
        version: Version::Two,
        weights,
    }
}

impl<'a> Members<'a> {
    // How many there are, 128 at most.
    fn count(self) -> u8 {
        u8::try_from(self.weights.len()).unwrap_or(128).min(128)
    }

    fn payload(self, alloc: Global) -> Result<Vec<u8>> {
        let mut payload = Vec::new(alloc);
        payload.push(self.count())?;
        for member in 0..self.count() {
            payload.extend_from_slice(&[member.saturating_add(1); 32])?;
        }
        if self.version == Version::Two {
            for weight in self.weights {
                payload.extend_from_slice(&weight.to_be_bytes())?;
            }
        }
        Ok(payload)
    }

    /// The committee.
    pub(crate) fn committee(self, alloc: Global) -> Result<Committee> {
        let payload = self.payload(alloc)?;
        match Committee::parse(alloc, self.version, &payload) {
            Ok(committee) => Ok(committee),
            Err(_) => bail!("no committee"),
        }
    }
}
