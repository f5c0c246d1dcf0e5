//! The lengths of the groups of a component, by their names.

ghost use Rattle.std.specs.Prelude.{◌≡◌, Some, is_some};
ghost use Rattle.cx_ast.specs.PlainStatements.{plain_statement};
ghost use Rattle.cx_promotion.specs.Rewriting as promotion;
ghost use Rattle.cx_promote.specs.Lengths.{length_at, long_in};

use cx_ast::{StatementForm, StatementItem};
use cx_names_scopes::Numbers;
use cx_text::Name;

/// The numbers of a component's groups by their names, and the length in cycles of each that is promotable.
#[derive(Clone, Copy)]
pub(crate) struct Lengths<'a> {
    pub(crate) numbers: &'a Numbers,
    pub(crate) cycles: &'a [Option<u64>],
}

impl Lengths<'_> {
    /// Whether a name is that of a promotable group.
    fn is_long(&self, group: &Name) -> bool
        ensures value { result ≡ long_in self.now group.now }
    {
        match self.numbers.find(group) {
            None => false,
            Some(number) => self.has_cycles(number),
        }
    }

    fn has_cycles(&self, number: usize) -> bool
        ensures value { result ≡ is_some (length_at self.now.cycles.now (Some number)) }
    {
        match self.cycles.get(number) {
            None => false,
            Some(cycles) => cycles.is_some(),
        }
    }

    /// Whether a statement is the enable of a promotable group.
    pub(crate) fn is_run(&self, statement: &StatementItem) -> bool
        ensures value { result ≡ promotion.is_run (long_in self.now) (plain_statement statement.now) }
    {
        match &statement.form {
            StatementForm::Enable { group, .. } => self.is_long(group),
            StatementForm::Seq { .. }
            | StatementForm::Par { .. }
            | StatementForm::StaticSeq { .. }
            | StatementForm::StaticPar { .. }
            | StatementForm::If { .. }
            | StatementForm::StaticIf { .. }
            | StatementForm::While { .. }
            | StatementForm::Repeat { .. }
            | StatementForm::StaticRepeat { .. }
            | StatementForm::Invoke { .. }
            | StatementForm::StaticInvoke { .. } => false,
        }
    }
}
