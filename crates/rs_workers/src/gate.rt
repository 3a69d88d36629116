//! What a worker passes before it turns its share.

/// What a worker passes before it turns the first outlet of its share.
pub trait Gate: Sync {
    /// The worker that turns this share enters; shares are counted from 0.
    fn enter(&self, share: usize);
}

/// A gate that is open.
#[derive(Clone, Copy, Debug)]
pub struct Free;

impl Gate for Free {
    fn enter(&self, _share: usize) {}
}
