// This module puts the item of one cell of a table. Nothing is put for an empty cell.
ghost use Rattle.std.specs.Prelude.{◌≡◌, [], ◌∷◌};
ghost use Rattle.listing.specs.Listing.{owner_item, reader_item, pair_item, cv_wait_item, mode_text, intent_item};
ghost use Rattle.listing.specs.Promises.{Roomy, Lists};

use crate::line::Line;
use detector::{CvWait, Pair};
use waits::{WaitIntent, WaitMode, Waits};

// Returns the name of a mode.
fn mode_name(mode: WaitMode) -> &'static [u8]
    ensures { result.now ≡ mode_text mode }
{
    match mode {
        WaitMode::Mutex => b"Mutex",
        WaitMode::RwRead => b"RwRead",
        WaitMode::RwWrite => b"RwWrite",
    }
}

impl<'a> Line<'a> {
    // Puts the item `lock:thread` of the lock l with the owner or writer o, if it has one.
    pub(crate) fn owner(&mut self, o: u8, l: usize)
        requires { Roomy self.old (owner_item o l) }
        ensures { Lists self.old (owner_item o l) self.new }
    {
        if o < Waits::NOBODY {
            self.two(l, b':', usize::from(o));
        }
    }

    // Puts the item `lock:thread:count` of the thread t that reads the lock l n times, if n is not 0.
    pub(crate) fn reader(&mut self, t: usize, l: usize, n: u8)
        requires { Roomy self.old (reader_item t l n) }
        ensures { Lists self.old (reader_item t l n) self.new }
    {
        if n != 0 {
            self.three(l, t, usize::from(n));
        }
    }

    // Puts the item `condvar:thread:lock` of a pair in the queue of the condvar c.
    pub(crate) fn pair(&mut self, c: usize, p: Pair)
        requires { Roomy self.old (pair_item c p ∷ []) }
        ensures { Lists self.old (pair_item c p ∷ []) self.new }
    {
        self.three(c, usize::from(p.thread), usize::from(p.lock));
    }

    // Puts the item `thread:condvar:lock` of the cv wait of the thread t, if it has one.
    pub(crate) fn cv_wait(&mut self, t: usize, v: CvWait)
        requires { Roomy self.old (cv_wait_item t v) }
        ensures { Lists self.old (cv_wait_item t v) self.new }
    {
        if v.condvar != CvWait::NONE {
            self.three(t, usize::from(v.condvar), usize::from(v.lock));
        }
    }

    // Puts the item `thread:mode:lock` of the intent of the thread t, if it has one.
    pub(crate) fn intent(&mut self, t: usize, intent: Option<WaitIntent>)
        requires { Roomy self.old (intent_item t intent) }
        ensures { Lists self.old (intent_item t intent) self.new }
    {
        if let Some(i) = intent {
            self.word(t, mode_name(i.mode), usize::from(i.lock_id));
        }
    }
}
