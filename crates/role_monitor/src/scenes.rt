//! What is read of a monitor while an entry is judged.

use dioc_terms::{Bundle, Entry, Role};
use rule_book::Book;
use std::alloc::Global;

/// What every part of a judgement reads of the monitor, and the entry that is judged.
#[derive(Clone, Copy)]
pub(crate) struct Scene<'s> {
    pub alloc: Global,
    pub bundle: &'s Bundle,
    pub me: &'s Role,
    pub book: &'s Book,
    pub entry: &'s Entry,
}
