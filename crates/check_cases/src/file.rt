// The words of a file.
use std::alloc::{AllocError, Global};

// The words of a head and the parts after it.
pub(crate) fn joined(heap: Global, head: u32, parts: &[&[u32]]) -> Result<Vec<u32>, AllocError> {
    let mut words = Vec::from_slice(heap, &[head])?;
    for part in parts {
        words.extend_from_slice(part)?;
    }
    Ok(words)
}
