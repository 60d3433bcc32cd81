//! Frames in which some bytes are others.

use std::alloc::{AllocError, Global};
use std::process::Abort;

/// Bytes by their places.
pub type Changes = &'static [(usize, u8)];

/// A frame in which these bytes are others.
pub fn changed(
    rt: &impl Abort,
    alloc: Global,
    frame: &[u8],
    changes: &[(usize, u8)],
) -> Result<Vec<u8>, AllocError> {
    let mut changed = frame.to_vec(alloc)?;
    for (place, byte) in changes {
        assert!(rt; *place < changed.len());
        changed[*place] = *byte;
    }
    Ok(changed)
}
