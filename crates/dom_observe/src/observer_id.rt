//! The number of an observer.

use dom_ids::Id;

/// The kind of an [`ObserverId`].
#[derive(Clone, Copy, Debug, PartialEq, Eq, Hash, Drop)]
pub struct OfObserver;

/// The number of an observer. The first is 0, and no number is reused.
pub type ObserverId = Id<OfObserver>;
