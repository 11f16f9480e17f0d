//! Positions of ranges, iterators, walkers and nodes, as C reads them.

/// The start and the end of a live range.
#[repr(C)]
#[derive(Clone, Copy, Debug)]
pub struct Ends {
    pub start: u32,
    pub start_offset: usize,
    pub end: u32,
    pub end_offset: usize,
}

/// The start and the end of a static range, and whether it is valid: 0 or 1.
#[repr(C)]
#[derive(Clone, Copy, Debug)]
pub struct StaticEnds {
    pub start: u32,
    pub start_offset: usize,
    pub end: u32,
    pub end_offset: usize,
    pub is_valid: u8,
}

/// The root and the reference of an iterator, and whether its pointer is before the reference: 0 or 1.
#[repr(C)]
#[derive(Clone, Copy, Debug)]
pub struct IteratorAt {
    pub root: u32,
    pub reference: u32,
    pub is_before: u8,
}

/// The root and the current node of a walker.
#[repr(C)]
#[derive(Clone, Copy, Debug)]
pub struct WalkerAt {
    pub root: u32,
    pub current: u32,
}

/// The node document, the kind by the standard's number (`nodeType`), and the siblings and the parent, or `HP_NONE`.
#[repr(C)]
#[derive(Clone, Copy, Debug)]
pub struct NodePosition {
    pub document: u32,
    pub kind: u8,
    pub next: u32,
    pub parent: u32,
    pub previous: u32,
}
