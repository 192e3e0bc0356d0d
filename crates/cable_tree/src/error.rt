/// Why rows are no tree, or no tree could be made of them. Rows are counted from 0.
#[derive(Clone, Copy, Debug, PartialEq, Eq)]
pub enum TreeError {
    /// There are no rows.
    Empty,
    /// The least row whose parent is not a row.
    NoParent(u16),
    /// The second row without a parent.
    TwoRoots(u16),
    /// The least row whose parent and port are those of an earlier row.
    PortTaken(u16),
    /// The least row from which the parents never lead to a row without one.
    Cycle(u16),
    /// Memory was refused.
    NoMemory,
}
