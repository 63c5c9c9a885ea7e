//! A value that counts its drops.
use std::cell::Cell;

/// A value that counts its drop in a cell.
pub(crate) struct Counted<'a> {
    drops: &'a Cell<u64>,
}

impl<'a> Counted<'a> {
    pub(crate) fn new(drops: &'a Cell<u64>) -> Counted<'a> {
        Counted { drops }
    }
}

impl Drop for Counted<'_> {
    fn drop(self) {
        let Counted { drops } = self;
        drops.set(drops.get().wrapping_add(1));
    }
}
