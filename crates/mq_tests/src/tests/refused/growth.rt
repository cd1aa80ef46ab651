//! Asks the preloaded allocator (tests/refused.c) to refuse a growth, by requests that nothing else makes. Where it
//! isn't preloaded, the system grants them.
use std::alloc::{AllocError, Global};

/// The request for so many bytes and n refuses the nth growth after it.
const ARM: usize = 33_554_432;

/// The request for so many bytes is refused where a growth was.
const MET: usize = 50_331_649;

/// Has the nth growth from now on refused, and none for 0.
pub(crate) fn refuse(alloc: Global, nth: u32) {
    is_refused(alloc, ARM + nth as usize);
}

/// Whether a growth was refused since then. From now on none is.
pub(crate) fn was_refused(alloc: Global) -> bool {
    let was_met = is_refused(alloc, MET);
    refuse(alloc, 0);
    was_met
}

fn is_refused(alloc: Global, bytes: usize) -> bool {
    let asked: Result<Vec<u8>, AllocError> = Vec::with_capacity(alloc, bytes);
    asked.is_err()
}
