//! Gates in memory: one that holds nobody, and one that holds calls as it is set to.

use crate::connections::Gate;
use bim_model::{Items, Shared};
use std::alloc::{AllocError, Global};
use std::sync::atomic::{AtomicU64, Ordering};
use std::thread::yield_now;

/// The most roles that a gate counts the calls of.
const MOST_ROLES: u32 = 64;

/// A gate that holds nobody and is closed when all lanes have ended.
#[derive(Drop)]
pub struct FreeGate {
    lanes: u64,
    ended: AtomicU64,
}

impl FreeGate {
    /// A gate for so many lanes, of which none has ended.
    pub fn new(lanes: u32) -> FreeGate {
        FreeGate {
            lanes: u64::from(lanes),
            ended: AtomicU64::new(0),
        }
    }
}

impl Gate for FreeGate {
    fn before_call(&self, _role: u32, _idle: bool) {}

    fn lane_ended(&self, _role: u32) {
        self.ended.fetch_add(1, Ordering::SeqCst);
    }

    fn closed(&self) -> bool {
        self.ended.load(Ordering::SeqCst) >= self.lanes
    }
}

/// Which calls of a role are counted: all, those that are idle, or the others.
#[derive(Clone, Copy, Debug, PartialEq, Eq)]
pub enum HoldCount {
    All,
    Idle,
    Busy,
}

/// Holds the call of a number, from 1, of one role, until a count of another role has reached a number, or that lane has
/// ended, or so many looks have run out.
#[derive(Clone, Copy, Debug, PartialEq, Eq)]
pub struct Hold {
    pub role: u32,
    pub call: u64,
    pub other: u32,
    pub count: HoldCount,
    pub reaches: u64,
    pub looks: u64,
}

// Before how many calls a role has stood, by whether they were idle, and whether its lane has ended.
#[derive(Drop)]
struct Role {
    idle: AtomicU64,
    busy: AtomicU64,
    ended: AtomicU64,
}

impl Role {
    fn new() -> Role {
        Role {
            idle: AtomicU64::new(0),
            busy: AtomicU64::new(0),
            ended: AtomicU64::new(0),
        }
    }

    fn stood(&self, count: HoldCount) -> u64 {
        let idle = self.idle.load(Ordering::SeqCst);
        let busy = self.busy.load(Ordering::SeqCst);
        match count {
            HoldCount::All => idle.saturating_add(busy),
            HoldCount::Idle => idle,
            HoldCount::Busy => busy,
        }
    }

    fn stands(&self, idle: bool) {
        if idle {
            self.idle.fetch_add(1, Ordering::SeqCst);
        } else {
            self.busy.fetch_add(1, Ordering::SeqCst);
        }
    }

    fn lets_go(&self, hold: &Hold) -> bool {
        self.ended.load(Ordering::SeqCst) > 0 || self.stood(hold.count) >= hold.reaches
    }
}

/// What a gate with holds has counted.
#[derive(Drop)]
pub(crate) struct Board {
    roles: Vec<Role>,
    holds: Items<Hold>,
    ran_out: AtomicU64,
}

impl Board {
    pub(crate) fn new(alloc: Global, holds: Items<Hold>) -> Result<Board, AllocError> {
        let mut roles = Vec::new(alloc);
        for _ in 0..MOST_ROLES {
            roles.push(Role::new())?;
        }
        Ok(Board {
            roles,
            holds,
            ran_out: AtomicU64::new(0),
        })
    }

    pub(crate) fn ran_out(&self) -> u64 {
        self.ran_out.load(Ordering::SeqCst)
    }

    fn wait(&self, hold: &Hold) {
        let Some(other) = self.roles.get(hold.other as usize) else {
            return;
        };
        for _ in 0..hold.looks {
            if other.lets_go(hold) {
                return;
            }
            yield_now();
        }
        self.ran_out.fetch_add(1, Ordering::SeqCst);
    }

    fn before_call(&self, role: u32, idle: bool) {
        let Some(own) = self.roles.get(role as usize) else {
            return;
        };
        own.stands(idle);
        let call = own.stood(HoldCount::All);
        for hold in self.holds.as_slice() {
            if hold.role == role && hold.call == call {
                self.wait(hold);
            }
        }
    }

    fn lane_ended(&self, role: u32) {
        if let Some(own) = self.roles.get(role as usize) {
            own.ended.fetch_add(1, Ordering::SeqCst);
        }
    }
}

/// A gate that holds calls as its list says, and is closed when all lanes have ended.
#[derive(Drop)]
pub struct HoldGate {
    free: FreeGate,
    board: Option<Shared<Board>>,
}

impl HoldGate {
    pub(crate) fn new(lanes: u32, board: Option<Shared<Board>>) -> HoldGate {
        HoldGate {
            free: FreeGate::new(lanes),
            board,
        }
    }
}

impl Gate for HoldGate {
    fn before_call(&self, role: u32, idle: bool) {
        if let Some(board) = &self.board {
            board.get().before_call(role, idle);
        }
    }

    fn lane_ended(&self, role: u32) {
        if let Some(board) = &self.board {
            board.get().lane_ended(role);
        }
        self.free.lane_ended(role);
    }

    fn closed(&self) -> bool {
        self.free.closed()
    }
}
