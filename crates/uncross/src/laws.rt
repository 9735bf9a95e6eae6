//! The laws on which the comparison stands: two blocks are exchanged between a tight shore and its
//! complement, and derivations are carried from a leaf to the same leaf.
pub use move_laws::laws::{carrying_law, exchange_law};
