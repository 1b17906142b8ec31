//! The six words of an object of the sets, by their places.

/// One more than the number of the head or the root whose node it is; 0 of a vacant node.
pub const OWNER: usize = 0;

/// 0 of a node of a list, 1 of a leaf, [`INNER`] of an inner node.
pub const KIND: usize = 1;

/// The key; of an inner node the one that divides its children.
pub const KEY: usize = 2;

/// Of a list: the next node, and of its head the first one. Of a root: the top of its tree.
pub const NEXT: usize = 3;

/// The left child of an inner node.
pub const LEFT: usize = 3;

/// The right child of an inner node.
pub const RIGHT: usize = 4;

/// The value of a node of a list or of a leaf.
pub const VALUE: usize = 5;

/// The rank of an inner node.
pub const RANK: usize = 5;

/// The kind of an inner node.
pub const INNER: u64 = 2;
