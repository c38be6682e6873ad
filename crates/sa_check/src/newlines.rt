//! The line starts of texts, by their line feeds.

use failure::{Failure, Invariant, known};
use sqlite_items::Items;
use std::alloc::Global;

/// The byte that ends a line.
const LINE_FEED: u8 = b'\n';

/// The positions of the line feeds in each text, in ascending order.
pub(crate) fn line_feeds(alloc: Global, texts: &[Items<u8>]) -> Result<Items<Items<u32>>, Failure> {
    let mut newlines = Items::new(alloc);
    for text in texts {
        newlines.push(feeds_of(alloc, text.as_slice())?)?;
    }
    Ok(newlines)
}

/// The positions of the line feeds in a text, in ascending order.
fn feeds_of(alloc: Global, text: &[u8]) -> Result<Items<u32>, Failure> {
    let mut newlines = Items::new(alloc);
    for (at, byte) in text.iter().enumerate() {
        if *byte == LINE_FEED {
            newlines.push(known(u32::try_from(at).ok(), Invariant::CheckedCount)?)?;
        }
    }
    Ok(newlines)
}
