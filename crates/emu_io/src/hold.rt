//! A gate for tests, which holds one moment of a line until another was seen.
use crate::faults::Memory;
use crate::gate::{Gate, Moment, OpenGate};
use std::alloc::Global;
use std::sync::atomic::{AtomicBool, Ordering};
use std::thread;

/// How often a hold looks for its second moment before it gives up.
const TURNS: u32 = 200_000_000;

/// After how many looks another thread is let run.
const YIELD_EACH: u32 = 1_024;

/// A moment of one line, whose number counts from 1.
#[derive(Clone, Copy, Debug, PartialEq, Eq)]
pub struct LineMoment {
    /// The number of the line.
    pub line: u32,
    /// The moment.
    pub moment: Moment,
}

/// A pair of moments, of which the first is held until the second was seen.
#[derive(Clone, Copy, Debug, PartialEq, Eq)]
pub struct Hold {
    /// The moment that is held.
    pub first: LineMoment,
    /// The moment that it waits for.
    pub second: LineMoment,
}

// A hold, and which of its moments were seen.
#[derive(Drop)]
struct Watch {
    hold: Hold,
    first_seen: AtomicBool,
    second_seen: AtomicBool,
}

impl Watch {
    fn new(hold: Hold) -> Watch {
        Watch {
            hold,
            first_seen: AtomicBool::new(false),
            second_seen: AtomicBool::new(false),
        }
    }

    fn note(&self, now: LineMoment) {
        if now == self.hold.first {
            self.first_seen.store(true, Ordering::SeqCst);
        }
        if now == self.hold.second {
            self.second_seen.store(true, Ordering::SeqCst);
        }
    }

    fn saw(&self, moment: LineMoment) -> bool {
        (moment == self.hold.first && self.first_seen.load(Ordering::SeqCst))
            || (moment == self.hold.second && self.second_seen.load(Ordering::SeqCst))
    }

    fn saw_both(&self) -> bool {
        self.first_seen.load(Ordering::SeqCst) && self.second_seen.load(Ordering::SeqCst)
    }

    // Waits for the second moment, and says whether it was seen.
    fn wait(&self) -> bool {
        for turn in 0..TURNS {
            if self.second_seen.load(Ordering::SeqCst) {
                return true;
            }
            if turn % YIELD_EACH == 0 {
                thread::yield_now();
            }
        }
        false
    }
}

/// A gate that holds the first moment of each of its pairs until the second was seen, for at most
/// 200,000,000 looks, and then notes that it gave up. A moment is seen as soon as the gate is told
/// of it. Threads may share it.
#[derive(Drop)]
pub struct HoldGate {
    watches: Vec<Watch>,
    gave_up: AtomicBool,
}

impl HoldGate {
    /// The gate of these pairs. The only refusal is want of memory.
    pub fn new(alloc: Global, holds: &[Hold]) -> Result<HoldGate, Memory> {
        let mut watches = Vec::new(alloc);
        for hold in holds {
            watches.push(Watch::new(*hold))?;
        }
        Ok(HoldGate {
            watches,
            gave_up: AtomicBool::new(false),
        })
    }

    /// Whether both moments of each pair were seen.
    pub fn saw_all(&self) -> bool {
        self.watches.iter().all(|watch| watch.saw_both())
    }

    /// Whether a moment of a pair was seen. A moment that stands in no pair never was.
    pub fn saw(&self, moment: LineMoment) -> bool {
        self.watches.iter().any(|watch| watch.saw(moment))
    }

    /// Whether a hold ended before its second moment was seen.
    pub fn gave_up(&self) -> bool {
        self.gave_up.load(Ordering::SeqCst)
    }
}

impl Gate for HoldGate {
    fn at(&self, line: u32, moment: Moment) {
        let now = LineMoment { line, moment };
        for watch in &self.watches {
            watch.note(now);
        }
        for watch in &self.watches {
            if now == watch.hold.first && !watch.wait() {
                self.gave_up.store(true, Ordering::SeqCst);
            }
        }
    }
}

/// What may be sent to a thread and shared by threads.
fn crosses<T: Send + Sync>() {}

/// Gates may be sent to a thread and shared by threads.
pub fn gates_cross_threads() {
    crosses::<OpenGate>();
    crosses::<HoldGate>();
}
