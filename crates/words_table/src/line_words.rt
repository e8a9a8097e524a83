//! The words of a line.
use std::alloc::{AllocError, Global};

/// The words behind `rdb`, each of which stands behind a `|`; none where the line has another
/// front.
pub(crate) fn words_of(alloc: Global, line: &str) -> Result<Option<Vec<String>>, AllocError> {
    let mut words = Vec::new(alloc);
    for (i, word) in line.split('|').enumerate() {
        if i > 0 {
            words.push(String::from_str(alloc, word)?)?;
        } else if word != "rdb" {
            return Ok(None);
        }
    }
    Ok(Some(words))
}
