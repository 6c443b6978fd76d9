//! How far a drill has come.

/// Who is shown how far a drill has come. Nothing is claimed of what is shown.
pub trait Progress {
    /// So many events of so many are done.
    fn show(&mut self, done: u32, of: u32);
}

/// Shows nothing.
#[derive(Clone, Copy, Debug)]
pub struct NoProgress;

impl Progress for NoProgress {
    fn show(&mut self, _done: u32, _of: u32) {}
}
