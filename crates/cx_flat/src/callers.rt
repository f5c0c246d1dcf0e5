//! A component whose static children are to stand in it.

use crate::stands::Stand;
use cx_design::Component;

/// A component, the flat components of static ones by number, and where its cells stand.
#[derive(Clone, Copy)]
pub(crate) struct Caller<'a> {
    pub table: &'a [Option<Component>],
    pub part: &'a Component,
    pub stands: &'a [Stand],
}
