//! The kinds of reference stores.

/// The kind of a store, which decides whether the slot's card is logged.
///
/// The filters come from Detlefs and others, ISMM 2004, section 2.2. The order in which they are
/// tried is in docs/rules.md, Kinds of store.
#[derive(Clone, Copy, Debug, PartialEq, Eq)]
pub enum Kind {
    /// The slot and its target lie in one region. No remembered set needs such a reference.
    SameRegion,
    /// The target is null: the slot refers to nothing.
    Null,
    /// The slot's card was pending already, so refinement will read it anyway.
    AlreadyDirty,
    /// The slot's card was clean. The store marked it dirty and put it into the mutator's log.
    Logged,
}
