//! The calls that are measured.

/// A kind of call.
#[derive(Clone, Copy)]
pub(crate) enum Call {
    /// Insert a new key into a map that grows from empty.
    Insert,
    /// Insert a new key into a map that has room for all.
    ReservedInsert,
    /// Look up a key that is there, in another order than that of insertion.
    Hit,
    /// Look up a key that is absent.
    Miss,
    /// Remove a key and insert another.
    Churn,
    /// Add one to the count of a key, new or not, in a map that grows from empty.
    Count,
    /// Move to the next entry.
    Iterate,
    /// Drop an entry by a clear.
    Clear,
}

/// All kinds, with their names.
pub(crate) const CALLS: [(Call, &str); 8] = [
    (Call::Insert, "insert"),
    (Call::ReservedInsert, "reserved insert"),
    (Call::Hit, "hit"),
    (Call::Miss, "miss"),
    (Call::Churn, "churn"),
    (Call::Count, "count"),
    (Call::Iterate, "iterate"),
    (Call::Clear, "clear"),
];
