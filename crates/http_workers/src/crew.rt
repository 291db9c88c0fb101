//! Which of the threads that serve connections look out for the next one, and which stand by.
use std::alloc::{AllocError, Global};
use std::sync::atomic::{AtomicU64, Ordering};
use std::sync::{Mutex, Wait};
use std::time::Duration;

/// How often it is looked whether a thread is still at the visit that it was at, in milliseconds. A
/// thread that the system gave no core for a while is taken for one, so this is longer than that.
const LOOK: u64 = 5;

/// After so many looks that found a thread that waits, it is looked no more until none does.
const QUIET: u64 = 16;

/// At least so often it is looked all the same, in milliseconds, so that nothing rests on a thread's
/// being told.
const LONGEST: u64 = 1_000;

/// After so many of its visits a thread looks which are held, where more look out than are to.
const VISITS_A_LOOK: u64 = 256;

/// The word of a thread: how often it began or ended something, and in the lowest two bits what it does.
const ABOUT: u64 = 3;

/// It stands by.
const ASIDE: u64 = 0;

/// It waits for a connection that is ready.
const WAITS: u64 = 1;

/// It gives a connection its turns.
const VISITS: u64 = 2;

/// What one thread does, in a cache line of its own: it is written twice a visit.
#[derive(Drop)]
struct Place {
    word: AtomicU64,
    _line: [u64; 15],
}

/// What was seen at the last look.
#[derive(Drop)]
struct Seen {
    words: Vec<u64>,
    /// How many looks found a thread that waits, one after the other.
    quiet: u64,
}

/// A thread's place among the threads, and whether it looks out.
#[derive(Drop)]
pub(crate) struct Seat {
    index: usize,
    is_taken: bool,
    /// How many visits have ended while there were more than so many that look out.
    visits: u64,
}

/// The threads that serve connections. So many of them look out for connections that are ready as have a
/// core each; the others stand by. One that has been at one visit for five milliseconds is not counted,
/// and another takes its place: so a long Range, a transaction or a gate holds no more than the thread
/// that does it, and a connection waits for some milliseconds at most while another thread stands by.
///
/// More threads than cores take each other's core away, and that of the one that has the engine's lock.
/// One fewer, on four cores, would cost a Put as much or a little less, but leave Ranges of 100 keys three
/// quarters to nine tenths of their rate: they are read beside the lock, so each core brings its part.
///
/// Which threads these are no clause says, nor which thread is told of a connection.
#[derive(Drop)]
pub(crate) struct Crew {
    /// How many look out at once.
    most: u64,
    /// How many look out now, those that are at a visit included.
    seated: AtomicU64,
    /// How many of them were at one visit for long when that was looked at last.
    held: AtomicU64,
    /// How many threads have come.
    came: AtomicU64,
    places: Vec<Place>,
    /// Of those that stand by one looks, under this lock; the others wait for it.
    seen: Mutex<Seen>,
    /// 1 while the one that looks sleeps until no thread waits.
    asleep: AtomicU64,
    /// Never anything but 0: what is slept at between two looks.
    between: AtomicU64,
    /// 1 once all is over.
    over: AtomicU64,
}

impl Crew {
    /// So many threads, of which at most so many look out at once. The error is want of memory.
    pub(crate) fn new(alloc: Global, threads: u64, most: u64) -> Result<Crew, AllocError> {
        let mut places = Vec::new(alloc);
        let mut words = Vec::new(alloc);
        for _ in 0..threads {
            places.push(Place {
                word: AtomicU64::new(ASIDE),
                _line: [0; 15],
            })?;
            words.push(ASIDE)?;
        }
        Ok(Crew {
            most,
            seated: AtomicU64::new(0),
            held: AtomicU64::new(0),
            came: AtomicU64::new(0),
            places,
            seen: Mutex::new(Seen { words, quiet: 0 }),
            asleep: AtomicU64::new(0),
            between: AtomicU64::new(0),
            over: AtomicU64::new(0),
        })
    }

    /// A thread comes. The first of them look out.
    pub(crate) fn join(&self) -> Seat {
        let index = self.came.fetch_add(1, Ordering::SeqCst);
        let is_taken = index < self.most;
        if is_taken {
            self.seated.fetch_add(1, Ordering::SeqCst);
        }
        Seat {
            index: usize::try_from(index).unwrap_or(usize::MAX),
            is_taken,
            visits: 0,
        }
    }

    /// A thread has ended its visit, and is to wait: where it is one too many it stands by until there
    /// is a place again.
    pub(crate) fn wait<R: Wait>(&self, rt: &R, seat: &mut Seat) {
        if seat.is_taken && self.is_crowded(seat) && self.has_left() {
            seat.is_taken = false;
        }
        if !seat.is_taken {
            self.note(seat, ASIDE);
            self.stand_by(rt);
            seat.is_taken = true;
        }
        self.note(seat, WAITS);
    }

    /// Whether more look out than are to where none is held. Then it is looked now and then which are: all
    /// may look out, and none stand by that does.
    fn is_crowded(&self, seat: &mut Seat) -> bool {
        if self.seated.load(Ordering::SeqCst) <= self.most {
            return false;
        }
        seat.visits = seat.visits.wrapping_add(1);
        if seat.visits % VISITS_A_LOOK == 0 {
            if let Some(mut seen) = self.seen.try_lock() {
                let _waiting = self.count_held(&mut *seen);
            }
        }
        true
    }

    /// Whether there is one too many, of which this thread is no more.
    fn has_left(&self) -> bool {
        let seated = self.seated.load(Ordering::SeqCst);
        let most = self.most.saturating_add(self.held.load(Ordering::SeqCst));
        if seated <= most {
            return false;
        }
        self.seated
            .compare_exchange(seated, seated - 1, Ordering::SeqCst, Ordering::SeqCst)
            .is_ok()
    }

    /// A thread begins a visit. Where no other waits, the one that looks is woken.
    pub(crate) fn visit(&self, seat: &Seat) {
        self.note(seat, VISITS);
        if self.asleep.load(Ordering::SeqCst) == 1 && !self.is_any_waiting() {
            self.wake();
        }
    }

    /// What a thread does from now on.
    fn note(&self, seat: &Seat, what: u64) {
        if let Some(place) = self.places.get(seat.index) {
            let word = place.word.load(Ordering::Relaxed);
            let next = (word & !ABOUT).wrapping_add(ABOUT + 1) | what;
            place.word.store(next, Ordering::SeqCst);
        }
    }

    fn is_any_waiting(&self) -> bool {
        self.places
            .iter()
            .any(|place| place.word.load(Ordering::SeqCst) & ABOUT == WAITS)
    }

    fn wake(&self) {
        if self.asleep.swap(0, Ordering::SeqCst) == 1 {
            self.asleep.wake_all();
        }
    }

    /// All is over: nobody stands by any more.
    pub(crate) fn end(&self) {
        self.over.store(1, Ordering::SeqCst);
        self.asleep.store(0, Ordering::SeqCst);
        self.asleep.wake_all();
    }

    /// Stands by until there is a place, or all is over.
    fn stand_by<R: Wait>(&self, rt: &R) {
        let mut seen = self.seen.lock(rt);
        for _ in rt.forever() {
            if self.over.load(Ordering::SeqCst) == 1 {
                return;
            }
            self.rest(rt, seen.quiet);
            if self.look(&mut *seen) {
                return;
            }
        }
    }

    /// Sleeps until it is to be looked again.
    fn rest<R: Wait>(&self, rt: &R, quiet: u64) {
        if quiet < QUIET {
            self.between
                .park_timeout(rt, 0, Duration::from_millis(LOOK));
            return;
        }
        self.asleep.store(1, Ordering::SeqCst);
        if self.is_any_waiting() && self.over.load(Ordering::SeqCst) == 0 {
            self.asleep
                .park_timeout(rt, 1, Duration::from_millis(LONGEST));
        }
        self.asleep.store(0, Ordering::SeqCst);
    }

    /// Looks what the threads do, and takes a place where fewer look out than may. Says whether it did.
    fn look(&self, seen: &mut Seen) -> bool {
        let waiting = self.count_held(seen);
        let most = self.most.saturating_add(self.held.load(Ordering::SeqCst));
        let is_short = self.seated.load(Ordering::SeqCst) < most;
        if is_short {
            self.seated.fetch_add(1, Ordering::SeqCst);
        }
        seen.quiet = if waiting && !is_short {
            seen.quiet.saturating_add(1)
        } else {
            0
        };
        is_short
    }

    /// Counts the threads that have been at one visit since the last look. Says whether any waits.
    fn count_held(&self, seen: &mut Seen) -> bool {
        let mut held = 0u64;
        let mut waiting = false;
        for (place, last) in self.places.iter().zip(seen.words.iter_mut()) {
            let word = place.word.load(Ordering::SeqCst);
            if word & ABOUT == WAITS {
                waiting = true;
            }
            if word & ABOUT == VISITS && word == *last {
                held = held.saturating_add(1);
            }
            *last = word;
        }
        self.held.store(held, Ordering::SeqCst);
        waiting
    }
}
