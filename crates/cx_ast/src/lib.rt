//! The tokens and the tree of a design's text.
#![tactic(auto)]

mod components;
mod guards;
mod operands;
mod signs;
mod statements;
mod tokens;
mod trees;
mod wiring;

pub use components::{Attribute, CellItem, ComponentItem, Mark, PortItem};
pub use guards::{Comparison, GuardItem};
pub use operands::{OperandForm, OperandItem};
pub use signs::Sign;
pub use statements::{BindItem, Block, StatementForm, StatementItem};
pub use tokens::{Token, TokenKind};
pub use trees::{ImportItem, Tree};
pub use wiring::{AssignItem, GroupItem, GroupWord, WireItem};
