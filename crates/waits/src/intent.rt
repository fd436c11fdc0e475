// What a thread waits for.
ghost use Rattle.std.specs.Prelude.{◌≡◌};
ghost use Rattle.waits.specs.Tables.{lock_of};

// Says how a thread wants a lock: as a mutex, to read it, or to write it.
#[derive(Clone, Copy)]
pub enum WaitMode {
    Mutex,
    RwRead,
    RwWrite,
}

// The intent of a thread: the lock it waits for, and the mode.
#[derive(Clone, Copy)]
pub struct WaitIntent {
    pub lock_id: u8,
    pub mode: WaitMode,
}

// Returns the lock that an intent names, or 0 if there is none. A report has it in the thread's entry.
pub fn lock_of(intent: Option<WaitIntent>) -> u8
    ensures { result ≡ lock_of intent }
{
    intent.map_or(0, |i| i.lock_id)
}
