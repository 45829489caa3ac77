//! The lock that callers share.

use std::hint::spin_loop;
use std::sync::{Mutex, MutexGuard, Wait};

/// A value under a lock, and how a thread waits for it.
#[derive(Drop)]
pub(crate) struct Lock<T: Drop> {
    mutex: Mutex<T>,
    is_brief: bool,
}

// How many turns of an empty loop a thread waits each time that it finds a brief lock held. While
// it stays away, the other makes many calls, and the cache lines stay with that one's processor.
const WAITS: [u32; 5] = [2, 16, 128, 1_024, 8_192];

impl<T: Drop> Lock<T> {
    /// Puts a value under a lock. The lock is brief if most of what is done under it ends before a
    /// waiting thread could fall asleep.
    pub(crate) fn new(value: T, is_brief: bool) -> Lock<T> {
        Lock {
            mutex: Mutex::new(value),
            is_brief,
        }
    }

    /// Takes the lock. While another thread has it, this one waits as in `Mutex::lock`, where it
    /// sleeps. If the lock is brief, it first looks again after each of [`WAITS`].
    #[inline(always)]
    pub(crate) fn lock<R: Wait>(&self, rt: &R) -> MutexGuard<'_, T> {
        if !self.is_brief {
            return self.mutex.lock(rt);
        }
        match self.mutex.try_lock() {
            Some(guard) => guard,
            None => self.back_off(rt),
        }
    }

    #[inline(never)]
    fn back_off<R: Wait>(&self, rt: &R) -> MutexGuard<'_, T> {
        for turns in WAITS {
            wait(turns);
            if let Some(guard) = self.mutex.try_lock() {
                return guard;
            }
        }
        self.mutex.lock(rt)
    }

    /// Returns the value.
    pub(crate) fn into_inner(self) -> T {
        self.mutex.into_inner()
    }
}

fn wait(turns: u32) {
    for _ in 0..turns {
        spin_loop();
    }
}
