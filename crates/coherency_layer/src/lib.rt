//! The coherency layer: one node's own table for one file, by pages. What the node asks of its pager and orders its
//! children to do, what it answers, and what each frame makes of the table.
//!
//! That one node writes a page or many read it, and that a layer keeps to this by messages to its pager and its cache
//! managers, is the Spring papers' rule. A node sees its own table and one frame at a time, nothing else.
#![tactic(auto)]

mod allowing;
mod node;
mod starting;
mod taking;
mod writing;

pub use node::Node;
pub use page_messages::{About, Asked, Called, NodeErr, PagedFile};
