// A gate that holds slices.
use dbg_traits::Gate;
use std::sync::atomic::{AtomicU64, Ordering};

/// How often it is looked whether what is waited for has come.
const TURNS: u64 = 50_000_000;

/// After so many calls of `idle` another hart's slice isn't waited for any longer.
const IDLES: u64 = 10_000;

/// What slices wait for.
#[derive(Clone, Copy)]
pub enum Waiting {
    /// The first for a slice of another hart.
    Hart,
    /// Each for a worker that has nothing to do.
    Idle,
}

impl Waiting {
    /// `hart` or `idle`.
    pub fn read(text: &str) -> Option<Waiting> {
        match text {
            "hart" => Some(Waiting::Hart),
            "idle" => Some(Waiting::Idle),
            _ => None,
        }
    }
}

/// Whose slices are counted.
#[derive(Clone, Copy)]
pub enum Whose {
    /// Those of the first hart.
    First,
    /// Those of the others.
    Others,
}

impl Whose {
    /// `first` or `others`.
    pub fn read(text: &str) -> Option<Whose> {
        match text {
            "first" => Some(Whose::First),
            "others" => Some(Whose::Others),
            _ => None,
        }
    }
}

/// How many slices were handed out.
#[derive(Clone, Copy)]
pub struct Handed {
    pub first: u64,
    pub others: u64,
}

impl Handed {
    /// Whether there were none, some, or more than so many.
    pub fn answer(self, whose: Whose, most: u32) -> &'static str {
        let count = match whose {
            Whose::First => self.first,
            Whose::Others => self.others,
        };
        if count == 0 {
            "none"
        } else if count <= u64::from(most) {
            "some"
        } else {
            "more"
        }
    }
}

/// Holds slices until what is waited for has come, or gives up after TURNS turns or IDLES calls of `idle`. Where
/// nothing is, it holds none. It counts those that are ready.
#[derive(Drop)]
pub struct Holding {
    waiting: Option<Waiting>,
    // How many slices of the first hart, and how many of the others, were ready.
    of_first: AtomicU64,
    of_others: AtomicU64,
    // The hart of the first slice and 1, or 0 before there is one.
    first: AtomicU64,
    idles: AtomicU64,
    came: AtomicU64,
    gave_up: AtomicU64,
}

impl Holding {
    /// Nothing has come yet.
    pub fn new(waiting: Option<Waiting>) -> Holding {
        Holding {
            waiting,
            of_first: AtomicU64::new(0),
            of_others: AtomicU64::new(0),
            first: AtomicU64::new(0),
            idles: AtomicU64::new(0),
            came: AtomicU64::new(0),
            gave_up: AtomicU64::new(0),
        }
    }

    /// Whether what is waited for has come, and before it was given up.
    pub fn was_met(&self) -> bool {
        self.came.load(Ordering::SeqCst) == 1 && self.gave_up.load(Ordering::SeqCst) == 0
    }

    /// How many slices were ready, each of which was handed out.
    pub fn handed(&self) -> Handed {
        Handed {
            first: self.of_first.load(Ordering::SeqCst),
            others: self.of_others.load(Ordering::SeqCst),
        }
    }

    fn count(&self, hart: u32) {
        if hart == 0 {
            self.of_first.fetch_add(1, Ordering::SeqCst);
        } else {
            self.of_others.fetch_add(1, Ordering::SeqCst);
        }
    }

    // Whether a slice of this hart's is held.
    fn holds(&self, hart: u32) -> bool {
        match self.waiting {
            None => false,
            Some(Waiting::Hart) => self.is_first(hart),
            Some(Waiting::Idle) => true,
        }
    }

    // Whether this hart's slice is the first.
    fn is_first(&self, hart: u32) -> bool {
        let me = u64::from(hart) + 1;
        match self
            .first
            .compare_exchange(0, me, Ordering::SeqCst, Ordering::SeqCst)
        {
            Ok(_) => true,
            Err(found) => {
                if matches!(self.waiting, Some(Waiting::Hart)) && found != me {
                    self.came.store(1, Ordering::SeqCst);
                }
                false
            }
        }
    }
}

impl Gate for Holding {
    fn slice_ready(&self, _worker: u32, hart: u32) {
        self.count(hart);
        if !self.holds(hart) {
            return;
        }
        for _ in 0..TURNS {
            if self.came.load(Ordering::SeqCst) != 0 {
                return;
            }
            if self.idles.load(Ordering::SeqCst) >= IDLES {
                break;
            }
            std::hint::spin_loop();
        }
        self.gave_up.store(1, Ordering::SeqCst);
    }

    fn idle(&self, _worker: u32) {
        match self.waiting {
            None => {}
            Some(Waiting::Hart) => {
                self.idles.fetch_add(1, Ordering::SeqCst);
            }
            Some(Waiting::Idle) => self.came.store(1, Ordering::SeqCst),
        }
    }
}
