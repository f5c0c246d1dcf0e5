//! Drafts: the drivers of a component as they are made.

ghost use Rattle.std.specs.Prelude.{◌≡◌, ◌+◌, ◌++◌, ◌∷◌, [], IfOk};
ghost use Rattle.cx_net.specs.PlainNets.{plain_net_expr, plain_net_target};
ghost use Rattle.cx_wiring.specs.Parts as parts;
ghost use Rattle.cx_fsm.specs.Drafts.{Adds, IfWhole, IsWhole, Keeps};

use crate::exprs::bit;
use cx_net::{NetDriver, NetExpr, NetTarget};
use cx_text::Memory;
use std::alloc::Global;

/// Drivers, one behind the other, as far as they are made. Where memory is wanting, or a number of 32 bits, the draft notes it
/// and goes on: what is made of it from then on stands for nothing, and `finished` refuses it.
#[derive(Drop)]
pub(crate) struct Draft {
    pub alloc: Global,
    pub drivers: Vec<NetDriver>,
    pub is_whole: bool,
}

impl Draft {
    /// No driver yet.
    pub fn new(alloc: Global) -> Draft
        ensures value { result.drivers.items ≡ [] }
    {
        let drivers = Vec::new(alloc);
        let is_whole = true;
        Draft {
            alloc,
            drivers,
            is_whole,
        }
    }

    /// All drivers, where nothing was wanting.
    pub fn finished(self) -> Result<Vec<NetDriver>, Memory>
        ensures whole { IfOk result (λ _. IsWhole self) }
        ensures value { IfOk result (λ drivers. drivers.items ≡ self.drivers.items) }
    {
        if self.is_whole {
            Ok(self.drivers)
        } else {
            Err(Memory)
        }
    }

    /// One more driver.
    pub fn drive(&mut self, target: NetTarget, guard: NetExpr, source: NetExpr)
        ensures driven { Adds self.old self.new
            (parts.drive (plain_net_target target) (plain_net_expr guard) (plain_net_expr source) ∷ []) }
    {
        let driver = NetDriver {
            target,
            guard,
            source,
        };
        if self.drivers.push(driver).is_err() {
            self.is_whole = false;
        }
    }

    /// A driver of a wire without a guard.
    pub fn connect(&mut self, wire: u32, source: NetExpr)
        ensures driven { Adds self.old self.new (parts.connect wire (plain_net_expr source) ∷ []) }
    {
        self.drive(NetTarget::Wire(wire), bit(true), source);
    }

    /// One more item of a list.
    pub fn push<T: Drop>(&mut self, list: &mut Vec<T>, item: T)
        ensures kept { Keeps self.old self.new }
        ensures value { IfWhole self.new (list.new.items ≡ list.old.items ++ item ∷ []) }
    {
        if list.push(item).is_err() {
            self.is_whole = false;
        }
    }

    /// The number of a part. Parts that no `u32` counts are too many for any memory.
    pub fn number_of(&mut self, place: usize) -> u32
        ensures kept { Keeps self.old self.new }
        ensures value { IfWhole self.new (result ≡ place) }
    {
        match u32::try_from(place) {
            Ok(number) => number,
            Err(_) => {
                self.is_whole = false;
                0
            }
        }
    }

    /// The sum of two numbers of parts.
    pub fn beyond(&mut self, first: u32, second: u32) -> u32
        ensures kept { Keeps self.old self.new }
        ensures value { IfWhole self.new (result ≡ first + second) }
    {
        match first.checked_add(second) {
            Some(number) => number,
            None => {
                self.is_whole = false;
                0
            }
        }
    }

    /// A number of cycles. A static statement of more is in no accepted design.
    pub fn cycles(&mut self, count: u64) -> u32
        ensures kept { Keeps self.old self.new }
        ensures value { IfWhole self.new (result ≡ count) }
    {
        match u32::try_from(count) {
            Ok(number) => number,
            Err(_) => {
                self.is_whole = false;
                0
            }
        }
    }
}
