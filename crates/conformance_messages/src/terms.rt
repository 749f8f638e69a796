//! Terms of views.

use simplex_base::positions::{TermLength, View};
use std::alloc::{AllocError, Global};

/// The term of a view: its index and start, and its end and the next term's start where these are views.
pub(crate) fn term(alloc: Global, length: TermLength, view: View) -> Result<String, AllocError> {
    let index = view.term_index(length);
    let start = view.term_start(length).get();
    let first = view.is_term_start(length);
    if !view.term_fits(length) {
        return format!(in alloc; "index {index}, start {start}, first {first}, past the end");
    }
    let end = view.term_end(length).get();
    let next = view.next_term_start(length).get();
    format!(in alloc; "index {index}, start {start}, end {end}, next {next}, first {first}")
}
