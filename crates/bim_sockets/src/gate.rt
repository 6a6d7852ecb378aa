//! The gate of a server that runs.

use bim_net::{FreeGate, Gate};
use std::rt::Clock;
use std::thread::sleep;
use std::time::Duration;

/// How long an idle caller waits before it looks again, in milliseconds. A fresh upload waits so long for a sleeping
/// worker, at most.
const IDLE: u64 = 5;

/// A gate that has callers that found nothing to do wait for a short while, and is closed when all lanes have ended.
#[derive(Drop)]
pub struct IdleGate<R: Clock + Drop> {
    handle: R,
    free: FreeGate,
}

impl<R: Clock + Drop> IdleGate<R> {
    /// A gate for so many lanes, of which none has ended.
    pub fn new(handle: R, lanes: u32) -> IdleGate<R> {
        IdleGate {
            handle,
            free: FreeGate::new(lanes),
        }
    }
}

impl<R: Clock + Drop> Gate for IdleGate<R> {
    fn before_call(&self, _role: u32, idle: bool) {
        if idle {
            sleep(&self.handle, Duration::from_millis(IDLE));
        }
    }

    fn lane_ended(&self, role: u32) {
        self.free.lane_ended(role);
    }

    fn closed(&self) -> bool {
        self.free.closed()
    }
}
