//! What the names of a Verilog module stand for, the rules on expressions, and the trees that some text spells.
#![tactic(auto)]

mod drafts;
mod exprs;
mod layout;
mod meanings;
mod names;
mod numerals;
mod scopes;
mod shapes;

pub use drafts::{DraftDecl, DraftExternal, DraftModule};
pub use exprs::too_deep;
pub use layout::{is_keyword, is_laid_out, is_name_byte, is_word};
pub use meanings::{
    decl_name, is_array, is_driven, is_register, is_source, is_wire, same, width_of,
};
pub use names::Names;
pub use numerals::Numeral;
pub use scopes::ModuleScope;
pub use shapes::{Shape, applied, array_shape, chosen, has_width, indexed, joined, shape_of};
