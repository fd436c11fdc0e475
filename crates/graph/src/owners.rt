// The owners that a thread waits for.

// The owners that block an intent, in order: the readers upward, then `last`, if there is another.
#[derive(Clone, Copy)]
pub struct Owners {
    pub readers: u32,
    pub last: Option<usize>,
}
