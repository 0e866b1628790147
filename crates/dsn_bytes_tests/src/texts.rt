//! Texts for tests, made of pieces.
use std::alloc::{AllocError, Global};

/// Appends texts in their order.
pub(crate) fn append_all(all: &mut Vec<u8>, texts: &[&[u8]]) -> Result<(), AllocError> {
    for text in texts {
        all.extend_from_slice(text)?;
    }
    Ok(())
}

/// Texts in their order, as one text.
pub(crate) fn joined(alloc: Global, texts: &[&[u8]]) -> Result<Vec<u8>, AllocError> {
    let mut all = Vec::new(alloc);
    append_all(&mut all, texts)?;
    Ok(all)
}

/// A text of `size` bytes with this start and this end.
pub(crate) fn text_of_size(
    alloc: Global,
    start: &[u8],
    size: usize,
    end: &[u8],
) -> Result<Vec<u8>, AllocError> {
    let mut text = Vec::new(alloc);
    text.extend_from_slice(start)?;
    text.resize(size.saturating_sub(end.len()), b'a')?;
    text.extend_from_slice(end)?;
    Ok(text)
}
