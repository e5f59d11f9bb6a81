//! A guest's doorbell. Nothing is claimed of what it holds.

use std::mem::replace;
use std::sync::{Condvar, Mutex, Wait};

#[derive(Drop)]
struct Rings {
    /// Rings so far; it stays at its greatest value.
    rings: u64,
    /// Processors that still run.
    running: u32,
    /// Whether the worker sleeps, and nobody has woken it.
    sleeps: bool,
}

/// What wakes a guest's worker.
#[derive(Drop)]
pub(crate) struct Bell {
    rings: Mutex<Rings>,
    rung: Condvar,
}

/// What a worker finds when it wakes.
#[derive(Clone, Copy)]
pub(crate) struct Rung {
    /// Rings so far.
    pub rings: u64,
    /// Whether a processor still runs.
    pub is_running: bool,
}

impl Bell {
    /// A doorbell that wasn't rung, of a guest with `running` running processors.
    pub fn new(running: u32) -> Bell {
        Bell {
            rings: Mutex::new(Rings {
                rings: 0,
                running,
                sleeps: false,
            }),
            rung: Condvar::new(),
        }
    }

    /// Rings once.
    pub fn ring<R: Wait>(&self, rt: &R) {
        let mut rings = self.rings.lock(rt);
        rings.rings = rings.rings.saturating_add(1);
        let sleeps = replace(&mut rings.sleeps, false);
        drop(rings);
        self.wake(sleeps);
    }

    /// One processor less runs.
    pub fn sign_off<R: Wait>(&self, rt: &R) {
        let mut rings = self.rings.lock(rt);
        rings.running = rings.running.saturating_sub(1);
        let sleeps = replace(&mut rings.sleeps, false);
        drop(rings);
        self.wake(sleeps);
    }

    /// Wakes the worker if it sleeps.
    fn wake(&self, sleeps: bool) {
        if sleeps {
            self.rung.notify_one();
        }
    }

    /// Waits for a ring after the first `seen`, or until no processor runs; one worker at a time.
    pub fn wait_past<R: Wait>(&self, rt: &R, seen: u64) -> Rung {
        let rings = self.rung.wait_while(rt, self.rings.lock(rt), |r| {
            r.sleeps = r.rings == seen && r.running > 0;
            r.sleeps
        });
        Rung {
            rings: rings.rings,
            is_running: rings.running > 0,
        }
    }
}
