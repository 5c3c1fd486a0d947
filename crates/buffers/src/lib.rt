//! Buffers whose memory is taken once and for all.
#![tactic(auto)]

ghost use Rattle.std.specs.Prelude.{◌≡◌, ◌≤◌, [], IfOk, vec_capacity};

use std::alloc::{AllocError, Global};

/// Values one behind another, with memory for `ROOM` of them.
#[derive(Drop)]
pub struct Buffer<T, const ROOM: usize> {
    pub held: Vec<T>,
    ghost room: { ROOM ≤ vec_capacity held },
}

impl<T, const ROOM: usize> Buffer<T, ROOM> {
    /// Nothing yet. All its memory is taken here.
    pub fn new(heap: Global) -> Result<Buffer<T, ROOM>, AllocError>
        ensures { IfOk result (λ buffer. buffer.held.items ≡ []) }
    {
        Ok(Buffer {
            held: Vec::with_capacity(heap, ROOM)?,
        })
    }
}

#[cfg(test)]
mod tests;
