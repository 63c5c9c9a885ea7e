//! Where the fields of a record are.

/// The bytes of a field: from `start` to before `end`.
#[derive(Clone, Copy)]
pub(crate) struct FieldSpan {
    pub(crate) start: usize,
    pub(crate) end: usize,
}
