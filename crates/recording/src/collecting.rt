// What collects what it has to say of a recording.
ghost use Rattle.std.specs.Prelude.{◌≡◌, ℕ, List, Option, OnOk};
ghost use Rattle.wire_types.specs.declared.header.Carrier.{Carrier};

use crate::line::BadLine;
use crate::listening::{Heard, Listener};
use std::alloc::AllocError;
use std::io;

/// What listens to a recording and collects what it has to say, so that it fails for want of memory alone.
pub trait Collector {
    /// What a block of a unit does to it.
    ghost block_gives: { Self → Option ℕ → Carrier → List ℕ → Self → Type 0 } = { λ s unit carrier bytes t. Unit {0} };

    /// What a line that says nothing does to it.
    ghost bad_gives: { Self → Self → Type 0 } = { λ s t. Unit {0} };

    fn hear_block(&mut self, heard: Heard<'_>) -> Result<(), AllocError>
        ensures { OnOk result (block_gives self.old heard.entry.unit heard.entry.block.carrier heard.entry.block.bytes.now self.new) };

    fn hear_bad(&mut self, number: u64, bad: BadLine) -> Result<(), AllocError>
        ensures { OnOk result (bad_gives self.old self.new) };
}

/// A listener as a collector. The error with which the listener fails is kept for the caller.
#[derive(Drop)]
pub(crate) struct Relay<'a, L> {
    pub(crate) listener: &'a mut L,
    pub(crate) failure: Option<io::Error>,
}

// Where it succeeds, the listener has done as it promises, and by the loan's ghost name it is still the caller's own.
impl<L: Listener> Collector for Relay<'_, L> {
    ghost block_gives = { λ s unit carrier bytes t. (t.listener.ghost_name ≡ s.listener.ghost_name) × L.block_gives s.listener.now unit carrier bytes t.listener.now };

    ghost bad_gives = { λ s t. (t.listener.ghost_name ≡ s.listener.ghost_name) × L.bad_gives s.listener.now t.listener.now };

    fn hear_block(&mut self, heard: Heard<'_>) -> Result<(), AllocError> {
        self.listener.hear_block(heard).map_err(|failure| {
            self.failure = Some(failure);
            AllocError
        })
    }

    fn hear_bad(&mut self, number: u64, bad: BadLine) -> Result<(), AllocError> {
        self.listener.hear_bad(number, bad).map_err(|failure| {
            self.failure = Some(failure);
            AllocError
        })
    }
}
