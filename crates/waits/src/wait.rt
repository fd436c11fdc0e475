// The rules of waiting: intents, the owners that block them, registering, refreshing and validating.
ghost use Rattle.std.specs.Prelude.{◌≡◌, ◌++◌, ◌<◌, IfSome, option_to_list};
ghost use Rattle.sets.specs.Limits.{THREADS, LOCKS};
ghost use Rattle.waits.specs.Owners.{owners, waits_for};
ghost use Rattle.sets.specs.Sets.{upward};
ghost use Rattle.graph.specs.Graph.{adding};
ghost use Rattle.waits.specs.Tables.{InRange, intent_of, with_graph};
ghost use Rattle.waits.specs.Waiting.{unwaited, clear, set_intent, register, renew, renew_start, refresh, refresh_locks};
ghost use Rattle.waits.specs.Validate.{valid, validate};
ghost use Rattle.waits.specs.Code.{linked, judged, awaited_mask};

use crate::counts::reader_mask;
use crate::intent::{WaitIntent, WaitMode};
use crate::tables::{Waits, owner};
use graph::{Owners, Path};
use sets::Set;

impl Waits {
    // Removes t's intent and takes t out of the waiters of the lock it named. Does nothing if t has no intent.
    fn forget_intent(&mut self, t: usize)
        requires { (t < THREADS) × InRange self.old }
        ensures { self.new ≡ unwaited self.old t (intent_of self.old t) }
    {
        if let Some(intent) = self.thread_waits_for[t] {
            let l = usize::from(intent.lock_id);
            self.lock_waiters[l] = self.lock_waiters[l].without(t);
            self.thread_waits_for[t] = None;
        }
    }

    // Clears t's intent: removes it, takes t out of the waiters of the lock it named, and drops every edge from t. The
    // edges go even if t has no intent.
    pub fn clear_wait_intent(&mut self, t: usize)
        requires { (t < THREADS) × InRange self.old }
        ensures { (self.new ≡ clear self.old t) × InRange self.new }
    {
        self.forget_intent(t);
        self.wait_for_graph.clear_wait_edges(t);
    }

    // Clears t's intent, then gives t the intent i and adds t to the waiters of its lock. Adds no edges.
    fn set_wait_intent(&mut self, t: usize, i: WaitIntent)
        requires { (t < THREADS) × InRange self.old × (i.lock_id < LOCKS) }
        ensures { (self.new ≡ set_intent self.old t i) × InRange self.new }
    {
        self.clear_wait_intent(t);
        let l = usize::from(i.lock_id);
        self.thread_waits_for[t] = Some(i);
        self.lock_waiters[l] = self.lock_waiters[l].with(t);
    }

    // Returns the owners that block the intent i: for a mutex its owner, for a read the writer, for a write the readers
    // and then the writer if it does not read too. The thread that waits may be among them.
    pub fn incompatible_owners(&self, counts: &[u8; Waits::COUNTS], i: WaitIntent) -> Owners
        requires { i.lock_id < LOCKS }
        ensures { (upward THREADS result.readers ++ option_to_list result.last ≡ owners counts.now self.now i) × IfSome result.last (λ o. o < THREADS) }
    {
        let l = usize::from(i.lock_id);
        match i.mode {
            WaitMode::Mutex => Owners {
                readers: 0,
                last: owner(self.mutex_owners[l]),
            },
            WaitMode::RwRead => Owners {
                readers: 0,
                last: owner(self.rwlock_writer[l]),
            },
            WaitMode::RwWrite => {
                let readers = reader_mask(counts, l);
                match owner(self.rwlock_writer[l]) {
                    Some(w) if readers.has(w) => Owners {
                        readers,
                        last: None,
                    },
                    last => Owners { readers, last },
                }
            }
        }
    }

    // Registers t: sets its intent and adds an edge to each owner that blocks it, in order. Returns the first path.
    pub(crate) fn register_wait(
        &mut self,
        counts: &[u8; Waits::COUNTS],
        t: usize,
        i: WaitIntent,
    ) -> Option<Path>
        requires { (t < THREADS) × InRange self.old × (i.lock_id < LOCKS) }
        ensures { (linked self.new result ≡ register counts.now self.old t i) × InRange self.new }
    {
        self.set_wait_intent(t, i);
        let owners = self.incompatible_owners(counts, i);
        self.wait_for_graph.add_owners(t, owners)
    }

    // Drops the edges of the waiter t and adds an edge to every owner that blocks its intent. Returns the first path.
    // Does nothing if t has no intent.
    fn renew(&mut self, counts: &[u8; Waits::COUNTS], t: usize) -> Option<Path>
        requires { (t < THREADS) × InRange self.old }
        ensures { (adding self.new.wait_for_graph result ≡ renew counts.now self.old (renew_start self.old) t) × (self.new ≡ with_graph self.old self.new.wait_for_graph) }
    {
        let i = self.thread_waits_for[t]?;
        let owners = self.incompatible_owners(counts, i);
        self.wait_for_graph.relink(t, owners)
    }

    // Refreshes l's waiters: renews the edges of each, upward. Returns the first path.
    pub fn refresh_waiters_for_lock(
        &mut self,
        counts: &[u8; Waits::COUNTS],
        l: usize,
    ) -> Option<Path>
        requires { (l < LOCKS) × InRange self.old }
        ensures { (linked self.new result ≡ refresh counts.now self.old l) × InRange self.new }
    {
        let mut found = None;
        for t in self.lock_waiters[l].upward() {
            found = found.or(self.renew(counts, t));
        }
        found
    }

    // Refreshes the waiters of each lock of the set, upward. Returns the first path of all.
    fn refresh_all(&mut self, counts: &[u8; Waits::COUNTS], set: u64) -> Option<Path>
        requires { InRange self.old }
        ensures { (linked self.new result ≡ refresh_locks counts.now self.old (upward LOCKS set)) × InRange self.new }
    {
        let mut found = None;
        for l in set.upward() {
            found = found.or(self.refresh_waiters_for_lock(counts, l));
        }
        found
    }

    // Returns the locks that the threads of the cycle await.
    fn awaited(&self, cycle: &Path) -> u64
        requires { InRange self.now }
        ensures { result ≡ awaited_mask self.now 0 cycle.now }
    {
        let mut locks = 0u64;
        for &t in cycle.threads() {
            if let Some(i) = self.thread_waits_for[usize::from(t)] {
                locks = locks.with(usize::from(i.lock_id));
            }
        }
        locks
    }

    // Returns true if t truly waits for u: t has an intent, and u is one of the owners that block it.
    fn waits_for(&self, counts: &[u8; Waits::COUNTS], t: usize, u: usize) -> bool
        requires { (t < THREADS) × (u < THREADS) × InRange self.now }
        ensures { result ≡ waits_for counts.now self.now t u }
    {
        let Some(i) = self.thread_waits_for[t] else {
            return false;
        };
        let owners = self.incompatible_owners(counts, i);
        if owners.last == Some(u) {
            return true;
        }
        owners.readers.has(u)
    }

    // Returns true if the cycle is valid: it has a thread, and every thread truly waits for the one after it, the last
    // one for the first.
    fn validate_wait_cycle(&self, counts: &[u8; Waits::COUNTS], cycle: &Path) -> bool
        requires { InRange self.now }
        ensures { result ≡ valid counts.now self.now cycle.now }
    {
        let Some((first, others)) = cycle.threads().split_first() else {
            return false;
        };
        let mut source = *first;
        for &target in others {
            if !self.waits_for(counts, usize::from(source), usize::from(target)) {
                return false;
            }
            source = target;
        }
        self.waits_for(counts, usize::from(source), usize::from(*first))
    }

    // Validates the cycle and returns the one to report: this one if it is valid. If not, refreshes the locks that its
    // threads await, and returns the first path that this finds if it is valid. That path is not filtered.
    pub(crate) fn validated_deadlock_info(
        &mut self,
        counts: &[u8; Waits::COUNTS],
        cycle: Path,
    ) -> Option<Path>
        requires { InRange self.old }
        ensures { (judged self.new result ≡ validate counts.now self.old cycle) × InRange self.new }
    {
        if self.validate_wait_cycle(counts, &cycle) {
            return Some(cycle);
        }
        let locks = self.awaited(&cycle);
        let refreshed = self.refresh_all(counts, locks)?;
        if self.validate_wait_cycle(counts, &refreshed) {
            return Some(refreshed);
        }
        None
    }
}
