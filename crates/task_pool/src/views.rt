//! What an end of a slot knows.

/// What an end of a slot knows. No value of it is made.
pub struct View<T> {
    /// Nothing has been laid yet, and the table's place is still at home.
    pub fresh: bool,
    /// It is a worker's end.
    pub works: bool,
    /// The task that it has laid, and not got back.
    pub laid: Option<T>,
    /// The task that it has taken, and not put back.
    pub taken: Option<T>,
    /// It has closed the slot, or has found it closed.
    pub closed: bool,
}
