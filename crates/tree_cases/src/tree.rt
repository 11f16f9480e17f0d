//! Trees that are built and changed, step by step: indices that are cached, known without a walk, or in blocks, and what takes no memory.

ghost use Rattle.dom_model.specs.Forests.Forest.{HasNode};

use super::player::expect;
use dom_kinds::{Kind, Label};
use dom_tree::{NodeId, Tree};
use growth_marks::{Act, begins, ends};
use std::alloc::{AllocError, Global};
use std::test::Fail;
use tree_steps::{made, put};

// A call at a turn with the node of that number, or an expected state. An element is its own node document, or has another one.
enum Step {
    // Makes a document.
    Document,
    // Makes an element.
    Element(Option<u32>),
    // Makes an element, and inserts it under a parent: as the last or the first child.
    Child(Option<u32>, u32),
    FirstChild(Option<u32>, u32),
    // Inserts the node under a parent, before another or as the last child.
    Put(u32, Option<u32>),
    // Appends it to a parent by the fast path, and expects whether that succeeds.
    PutLeaf(u32, bool),
    // Removes it from its parent.
    Cut,
    // Frees it, with all its descendants.
    Free,
    // Caches the index of each of its children.
    NumberChildren,
    // Reserves room for blocks of its children.
    MakeRoom,
    // Finds its index, and caches it.
    Found(usize),
    // Expects its index, its number less this one, without a walk.
    Behind(usize),
    // Expects whether it comes before this sibling.
    ComesBefore(u32, bool),
    // Expects its cached index.
    Kept(Option<usize>),
    // Expects its index.
    Index(usize),
    // Expects the index that a walk of this many steps finds.
    Within(usize, Option<usize>),
    // Expects how many of its children are of a kind, if they are counted.
    OfKind(Kind, Option<u32>),
    // Marks steps that take no memory.
    Begins,
    Ends,
}

// The first turn, the turn after the last, and the step for each turn.
type Row = (u32, u32, Step);

fn node_if(number: Option<u32>) -> Option<NodeId> {
    match number {
        Some(number) => Some(NodeId::new(number)),
        None => None,
    }
}

// Makes a node, and returns whether its number is the expected one.
fn make(
    tree: &mut Tree<u32>,
    due: u32,
    kind: Kind,
    document: Option<u32>,
) -> Result<bool, AllocError> {
    let id = made(tree, Label::nameless(kind), 7, node_if(document))?;
    Ok(id.number() == due)
}

// Inserts a node as the first child.
fn put_first(tree: &mut Tree<u32>, parent: NodeId, child: NodeId) -> bool {
    if !tree.holds(parent) {
        return false;
    }
    let first = tree.first(parent);
    put(tree, parent, child, first)
}

fn cut(tree: &mut Tree<u32>, child: NodeId) -> bool {
    if !tree.holds(child) || tree.parent(child).is_none() {
        return false;
    }
    tree.cut(child);
    true
}

fn free(tree: &mut Tree<u32>, top: NodeId) -> bool {
    if !tree.holds(top) || tree.refers(top) {
        return false;
    }
    tree.free(top);
    true
}

fn number_children(tree: &mut Tree<u32>, parent: NodeId) -> bool {
    if !tree.holds(parent) {
        return false;
    }
    tree.number_children(parent);
    true
}

fn reserve_blocks(tree: &mut Tree<u32>, parent: NodeId) -> Result<bool, AllocError> {
    if !tree.holds(parent) {
        return Ok(false);
    }
    tree.reserve_blocks_for(parent, 0)?;
    Ok(true)
}

fn found(tree: &mut Tree<u32>, id: NodeId, due: usize) -> bool {
    tree.holds(id) && tree.found_index(id) == due
}

// Returns whether the order of two siblings is the expected one.
fn comes_before(tree: &mut Tree<u32>, a: NodeId, b: NodeId, due: bool) -> bool {
    if !tree.holds(a) || !tree.holds(b) || tree.parent(a).is_none() {
        return false;
    }
    if tree.parent(a) != tree.parent(b) {
        return false;
    }
    tree.found_comes_before(a, b) == due
}

// Returns whether a node's index is its number less `less`, without a walk.
fn is_behind(tree: &Tree<u32>, id: NodeId, less: usize) -> bool
    requires { HasNode tree.now.forest id }
{
    let due = (id.number() as usize).checked_sub(less);
    due.is_some() && tree.index_within(id, 0) == due
}

// Returns whether the expected state of a node is there.
fn is_due_of(tree: &Tree<u32>, id: NodeId, step: &Step) -> bool
    requires { HasNode tree.now.forest id }
{
    match step {
        Step::Kept(index) => tree.kept_index(id) == *index,
        Step::Index(index) => tree.index(id) == *index,
        Step::Behind(less) => is_behind(tree, id, *less),
        Step::Within(steps, index) => tree.index_within(id, *steps) == *index,
        Step::OfKind(kind, count) => tree.children_of_kind(id, *kind) == *count,
        _ => false,
    }
}

// Makes an element, and inserts it under a parent: as the last or the first child.
fn make_child(
    tree: &mut Tree<u32>,
    due: u32,
    document: Option<u32>,
    parent: u32,
    is_last: bool,
) -> Result<bool, AllocError> {
    let parent = NodeId::new(parent);
    let child = NodeId::new(due);
    if !make(tree, due, Kind::Element, document)? {
        return Ok(false);
    }
    if is_last {
        return Ok(put(tree, parent, child, None));
    }
    Ok(put_first(tree, parent, child))
}

impl Act for Step {
    type Scene = Tree<u32>;

    fn scene(alloc: Global) -> Tree<u32> {
        Tree::new(alloc)
    }

    fn act(&self, alloc: Global, tree: &mut Tree<u32>, turn: u32) -> Result<bool, AllocError> {
        let id = NodeId::new(turn);
        match self {
            Step::Document => make(tree, turn, Kind::Document, None),
            Step::Element(document) => make(tree, turn, Kind::Element, *document),
            Step::Child(document, parent) => make_child(tree, turn, *document, *parent, true),
            Step::FirstChild(document, parent) => make_child(tree, turn, *document, *parent, false),
            Step::Put(parent, before) => Ok(put(tree, NodeId::new(*parent), id, node_if(*before))),
            Step::Cut => Ok(cut(tree, id)),
            Step::Free => Ok(free(tree, id)),
            Step::NumberChildren => Ok(number_children(tree, id)),
            Step::MakeRoom => reserve_blocks(tree, id),
            Step::Found(index) => Ok(found(tree, id, *index)),
            Step::PutLeaf(parent, due) => Ok(tree.put_leaf(NodeId::new(*parent), id) == *due),
            Step::ComesBefore(other, due) => Ok(comes_before(tree, id, NodeId::new(*other), *due)),
            Step::Begins => begins(alloc),
            Step::Ends => Ok(ends(alloc)),
            _ => Ok(tree.holds(id) && is_due_of(tree, id, self)),
        }
    }
}

// The fast path appends a root without children if its parent accepts it without further checks, and takes no memory. Otherwise nothing changes.
const LEAVES: &[Row] = &[
    (0, 1, Step::Document),
    (1, 5, Step::Element(Some(0))),
    (5, 6, Step::Element(None)),
    (6, 134, Step::Element(Some(0))),
    (0, 1, Step::Begins),
    (2, 4, Step::PutLeaf(1, true)),
    // The node has a parent, or has children, or is the parent, or is a Document.
    (2, 3, Step::PutLeaf(4, false)),
    (1, 2, Step::PutLeaf(4, false)),
    (4, 5, Step::PutLeaf(4, false)),
    (0, 1, Step::PutLeaf(4, false)),
    // A Document needs more checks, and a node of another document is adopted.
    (4, 5, Step::PutLeaf(0, false)),
    (5, 6, Step::PutLeaf(1, false)),
    // There is no such node.
    (4, 5, Step::PutLeaf(500, false)),
    (500, 501, Step::PutLeaf(1, false)),
    // It is a root again, and is inserted elsewhere.
    (2, 3, Step::Cut),
    (2, 3, Step::PutLeaf(4, true)),
    // From 128 children on, room for blocks may be needed.
    (6, 133, Step::PutLeaf(1, true)),
    (133, 134, Step::PutLeaf(1, false)),
    (0, 1, Step::Ends),
    (132, 133, Step::Index(127)),
];

// The element 6 is inserted before four others, whose indices grow. No index is cached until all are.
const FIVE_CHILDREN: &[Row] = &[
    (0, 1, Step::Document),
    (1, 2, Step::Element(Some(0))),
    (2, 6, Step::Child(Some(0), 1)),
    (6, 7, Step::FirstChild(Some(0), 1)),
    (6, 7, Step::Index(0)),
    (3, 4, Step::Kept(None)),
    (5, 6, Step::Kept(None)),
    // Found from both sides. The node 1 is a root.
    (3, 4, Step::Within(0, None)),
    (3, 4, Step::Within(1, None)),
    (3, 4, Step::Within(2, Some(2))),
    (3, 4, Step::Within(usize::MAX, Some(2))),
    (6, 7, Step::Within(0, Some(0))),
    (5, 6, Step::Within(0, Some(4))),
    (4, 5, Step::Within(0, None)),
    (4, 5, Step::Within(1, Some(3))),
    (1, 2, Step::Within(0, Some(0))),
    (1, 2, Step::NumberChildren),
    (3, 4, Step::Within(0, Some(2))),
    (6, 7, Step::Kept(Some(0))),
    (2, 3, Step::Kept(Some(1))),
    (3, 4, Step::Kept(Some(2))),
    (4, 5, Step::Kept(Some(3))),
    (5, 6, Step::Kept(Some(4))),
];

// The children are 301, 300 and so on, down to 2. Comparing two neighbours caches no index; comparing two far apart does.
const FAR_APART: &[Row] = &[
    (0, 1, Step::Document),
    (1, 2, Step::Element(Some(0))),
    (2, 302, Step::FirstChild(Some(0), 1)),
    (151, 152, Step::ComesBefore(150, true)),
    (200, 201, Step::Kept(None)),
    (200, 201, Step::ComesBefore(100, true)),
    (200, 201, Step::Kept(Some(101))),
    (100, 101, Step::Kept(Some(201))),
    (100, 101, Step::ComesBefore(200, false)),
    (100, 101, Step::ComesBefore(100, false)),
];

// The children are 2, 3 and so on, up to 301. The first query has no room for blocks, and caches the indices of the preceding siblings. Once there is
// room, the next query puts all children into blocks. Their indices are then known wherever children are inserted and removed.
const IN_BLOCKS: &[Row] = &[
    (0, 1, Step::Document),
    (1, 2, Step::Element(Some(0))),
    (2, 302, Step::Child(Some(0), 1)),
    (302, 310, Step::Element(Some(0))),
    (302, 303, Step::Put(1, Some(2))),
    (150, 151, Step::Found(149)),
    (150, 151, Step::Kept(Some(149))),
    (1, 2, Step::MakeRoom),
    (1, 2, Step::Begins),
    (303, 304, Step::Put(1, Some(100))),
    (200, 201, Step::Found(200)),
    (200, 201, Step::Kept(None)),
    (2, 100, Step::Behind(1)),
    (303, 304, Step::Within(0, Some(99))),
    (100, 302, Step::Behind(0)),
    // Inserts between two blocks, and at the end.
    (304, 305, Step::Put(1, Some(128))),
    (305, 306, Step::Put(1, Some(129))),
    (306, 307, Step::Put(1, None)),
    (100, 128, Step::Behind(0)),
    (304, 305, Step::Within(0, Some(128))),
    (128, 129, Step::Within(0, Some(129))),
    (305, 306, Step::Within(0, Some(130))),
    (306, 307, Step::Within(0, Some(304))),
    // Moves a child to another block.
    (200, 201, Step::Cut),
    (200, 201, Step::Put(1, Some(10))),
    (200, 201, Step::Within(0, Some(9))),
    (10, 100, Step::Behind(0)),
    (201, 202, Step::Within(0, Some(203))),
    (301, 302, Step::Within(0, Some(303))),
    (306, 307, Step::Within(0, Some(304))),
    (199, 200, Step::Within(0, Some(202))),
    // Moves the first child of a block to another block.
    (128, 129, Step::Cut),
    (128, 129, Step::Put(1, Some(20))),
    (199, 200, Step::Within(0, Some(202))),
    (1, 2, Step::Ends),
];

#[test]
fn indices_in_blocks_stay_known_without_a_growth(rt: HostRuntime) -> Result<(), Fail> {
    expect(&rt, rt.alloc(), &[("in blocks", IN_BLOCKS)])
}

// A parent and its children are freed with their blocks, and new nodes in their slots have none.
const BLOCKS_LET_GO: &[Row] = &[
    (0, 1, Step::Document),
    (1, 2, Step::Element(Some(0))),
    (2, 302, Step::Child(Some(0), 1)),
    (302, 303, Step::FirstChild(Some(0), 1)),
    (150, 151, Step::Found(149)),
    (1, 2, Step::MakeRoom),
    (302, 303, Step::Cut),
    (302, 303, Step::Put(1, Some(2))),
    (150, 151, Step::Found(149)),
    (2, 302, Step::Behind(1)),
    (1, 2, Step::Free),
    (303, 304, Step::Element(Some(0))),
    (304, 604, Step::Child(Some(0), 303)),
    (454, 455, Step::Found(150)),
    (454, 455, Step::Kept(Some(150))),
];

// Appended children have cached indices. A removed child leaves the indices before it, and is appended again.
const CUT_AND_PUT_BACK: &[Row] = &[
    (0, 1, Step::Document),
    (1, 2, Step::Element(Some(0))),
    (2, 6, Step::Child(Some(0), 1)),
    (2, 3, Step::Kept(Some(0))),
    (3, 4, Step::Kept(Some(1))),
    (4, 5, Step::Kept(Some(2))),
    (5, 6, Step::Kept(Some(3))),
    (4, 5, Step::Cut),
    (2, 3, Step::Kept(Some(0))),
    (3, 4, Step::Kept(Some(1))),
    (5, 6, Step::Kept(None)),
    (5, 6, Step::Index(2)),
    (4, 5, Step::Put(1, None)),
    (4, 5, Step::Index(3)),
];

// Compares two of three hundred children, caches all indices, moves one to the front, removes it and frees it.
const WITHOUT_A_GROWTH: &[Row] = &[
    (0, 1, Step::Document),
    (1, 2, Step::Element(Some(0))),
    (2, 302, Step::FirstChild(Some(0), 1)),
    (0, 1, Step::Begins),
    (200, 201, Step::ComesBefore(100, true)),
    (1, 2, Step::NumberChildren),
    (150, 151, Step::Cut),
    (150, 151, Step::Put(1, Some(301))),
    (150, 151, Step::Index(0)),
    (150, 151, Step::Cut),
    (150, 151, Step::Free),
    (0, 1, Step::Ends),
];

#[test]
fn children_without_a_growth(rt: HostRuntime) -> Result<(), Fail> {
    expect(&rt, rt.alloc(), &[("three hundred", WITHOUT_A_GROWTH)])
}

// The elements and doctypes of a Document are counted. Those of an element are not, and neither are those of an element in a Document's old slot.
const COUNTED_BY_KIND: &[Row] = &[
    (0, 1, Step::Document),
    (1, 2, Step::Element(Some(0))),
    (2, 3, Step::Child(Some(0), 1)),
    (0, 1, Step::Begins),
    (0, 1, Step::OfKind(Kind::Element, Some(0))),
    (0, 1, Step::OfKind(Kind::DocumentType, Some(0))),
    (0, 1, Step::OfKind(Kind::Comment, None)),
    (1, 2, Step::OfKind(Kind::Element, None)),
    (0, 1, Step::Ends),
    (1, 2, Step::Free),
    (0, 1, Step::Free),
    (3, 4, Step::Element(None)),
    (3, 4, Step::OfKind(Kind::Element, None)),
    (4, 5, Step::Document),
    (4, 5, Step::OfKind(Kind::Element, Some(0))),
];

#[test]
fn scenes(rt: HostRuntime) -> Result<(), Fail> {
    let scenes = [
        ("leaves come in at once", LEAVES),
        ("five children and their indices", FIVE_CHILDREN),
        (
            "children far apart are numbered once they are compared",
            FAR_APART,
        ),
        ("blocks go with their parent", BLOCKS_LET_GO),
        (
            "four children, one cut and appended again",
            CUT_AND_PUT_BACK,
        ),
        ("a document knows how many elements it has", COUNTED_BY_KIND),
    ];
    expect(&rt, rt.alloc(), &scenes)
}
