ghost use Rattle.std.specs.Prelude.{◌≡◌, ◌≢◌, ◌<◌, ◌≤◌, ◌-◌, length, IfOk, Some, is_ok, false};
ghost use Rattle.std.specs.Io.KnownBytes.{WriteAppends};
ghost use Rattle.bk_frames.specs.Device.{CanBeUsed, Counts, OnePull};
ghost use Rattle.bk_frames.specs.Counting.{fused_of, left_of, next_left, fused};

use crate::device::{Failed, Sink, Source};

/// A source or a sink that fails one call by itself: it passes `k` calls on to the one inside, fails the next, and passes
/// all later ones. The failure is added to the count of the one inside.
#[derive(Debug, Drop)]
pub struct Fuse<T> {
    inner: T,
    // How many calls are passed before the one that fails, `None` after it.
    left: Option<u64>,
}

impl<T> Fuse<T> {
    /// Passes `k` calls, and fails the next.
    pub fn new(inner: T, k: u64) -> Self
        ensures inner { fused_of result ≡ inner }
        ensures left { left_of result ≡ Some k }
    {
        Fuse {
            inner,
            left: Some(k),
        }
    }

    /// Gives the source or the sink back.
    pub fn into_inner(self) -> T
        ensures { result ≡ fused_of self }
    {
        let Fuse { inner, left: _ } = self;
        inner
    }
}

impl<S: Source> Source for Fuse<S> {
    ghost state = { λ f. fused (S.state f.inner) f.left };

    fn failures(&self) -> u64 {
        match self.left {
            Some(_) => self.inner.failures(),
            None => self.inner.failures().saturating_add(1),
        }
    }

    fn pull(&mut self, buf: &mut [u8]) -> Result<usize, Failed>
        requires { CanBeUsed (fused (S.state (fused_of self.old)) (left_of self.old)) }
        ensures bound { IfOk result (λ n. n ≤ length buf.new) }
        ensures bytes { OnePull (S.state (fused_of self.old)) (S.state (fused_of self.new))
            result buf.new }
        ensures count { Counts (fused (S.state (fused_of self.old)) (left_of self.old))
            (fused (S.state (fused_of self.new)) (left_of self.new)) result }
        ensures left { left_of self.new ≡ next_left (left_of self.old) }
        ensures fails { left_of self.old ≡ Some 0 → (is_ok result ≡ false)
            × (fused_of self.new ≡ fused_of self.old) }
        ensures passes { left_of self.old ≢ Some 0
            → Counts (S.state (fused_of self.old)) (S.state (fused_of self.new)) result }
    {
        match self.left {
            Some(0) => {
                self.left = None;
                Err(Failed)
            }
            Some(left) => {
                self.left = Some(left - 1);
                self.inner.pull(buf)
            }
            None => self.inner.pull(buf),
        }
    }
}

impl<K: Sink> Sink for Fuse<K> {
    ghost state = { λ f. fused (K.state f.inner) f.left };

    fn failures(&self) -> u64 {
        match self.left {
            Some(_) => self.inner.failures(),
            None => self.inner.failures().saturating_add(1),
        }
    }

    fn push(&mut self, bytes: &[u8]) -> Result<usize, Failed>
        requires { CanBeUsed (fused (K.state (fused_of self.old)) (left_of self.old)) }
        ensures bound { IfOk result (λ n. n ≤ length bytes.now) }
        ensures moves { IfOk result (λ n. 0 < length bytes.now → 0 < n) }
        ensures bytes { WriteAppends (K.state (fused_of self.old)).bytes
            (K.state (fused_of self.new)).bytes result bytes.now }
        ensures count { Counts (fused (K.state (fused_of self.old)) (left_of self.old))
            (fused (K.state (fused_of self.new)) (left_of self.new)) result }
        ensures left { left_of self.new ≡ next_left (left_of self.old) }
        ensures fails { left_of self.old ≡ Some 0 → (is_ok result ≡ false)
            × (fused_of self.new ≡ fused_of self.old) }
        ensures passes { left_of self.old ≢ Some 0
            → Counts (K.state (fused_of self.old)) (K.state (fused_of self.new)) result }
    {
        match self.left {
            Some(0) => {
                self.left = None;
                Err(Failed)
            }
            Some(left) => {
                self.left = Some(left - 1);
                self.inner.push(bytes)
            }
            None => self.inner.push(bytes),
        }
    }
}
