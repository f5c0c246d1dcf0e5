//! Where a statement stands.

ghost use Rattle.std.specs.Prelude.{◌≡◌};
ghost use Rattle.cx_rules.specs.Items as items;
ghost use Rattle.cx_design_sizes.specs.StatementSizes.{context_of};

/// Dynamic control, static control, the branch of a static `if`, or below a statement that may not stand in static control.
#[derive(Clone, Copy, Debug, PartialEq, Eq)]
pub enum LimitContext {
    Dynamic,
    InStatic,
    Branch,
    Amiss,
}

/// Where the parts of a dynamic statement stand.
pub fn below_dynamic(context: LimitContext) -> LimitContext
    ensures { context_of result ≡ items.below_dynamic (context_of context) }
{
    match context {
        LimitContext::Dynamic => LimitContext::Dynamic,
        LimitContext::InStatic | LimitContext::Branch | LimitContext::Amiss => LimitContext::Amiss,
    }
}
