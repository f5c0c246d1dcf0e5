//! Runs of enables, cut into pieces.

ghost use Rattle.std.specs.Prelude.{◌≡◌, ◌<◌, [], ℕ, Bool, List, OnOk, length, nat_eq};
ghost use Rattle.cx_ast.specs.PlainStatements.{plain_statement, plain_statements, PlainStatements, StatementThen};
ghost use Rattle.cx_promotion.specs.Rewriting.{PIECE as LONGEST, close as closed, is_run as is_run_of};
ghost use Rattle.cx_promote.specs.Cutting.{before, cut_with, done_of, open_of};

use cx_ast::{Block, StatementForm, StatementItem};
use cx_text::Memory;
use std::alloc::Global;
use std::mem::replace;

/// No more enables than this stand in one piece.
const PIECE: usize = 4_096;

/// Statements that are cut, and the enables of the piece that is open.
#[derive(Drop)]
pub(crate) struct Pieces {
    pub(crate) done: Vec<StatementItem>,
    pub(crate) piece: Vec<StatementItem>,
}

impl Pieces {
    /// No statements.
    pub(crate) fn new(alloc: Global) -> Pieces
        ensures done { result.done.items ≡ [] }
        ensures piece { result.piece.items ≡ [] }
    {
        Pieces {
            done: Vec::new(alloc),
            piece: Vec::new(alloc),
        }
    }

    /// Whether the open piece takes no other enable.
    fn is_full(&self) -> bool
        ensures value { result ≡ nat_eq (length (open_of self.now)) LONGEST }
    {
        self.piece.len() == PIECE
    }

    /// Adds a statement: an enable of a run into the open piece, or into a new one where that is full; another statement behind the
    /// open piece, which is closed.
    #[tactic(auto, using(crate::proofs::CuttingLemmas::add_full, crate::proofs::CuttingLemmas::add_open))]
    pub(crate) fn add(
        &mut self,
        alloc: Global,
        is_run: bool,
        statement: StatementItem,
    ) -> Result<(), Memory>
        ensures value { (long : List ℕ → Bool) (later : PlainStatements) →
            is_run ≡ is_run_of long (plain_statement statement) →
            OnOk result (cut_with long self.new later ≡
            cut_with long self.old (StatementThen (plain_statement statement) later)) }
    {
        if !is_run {
            self.close(alloc)?;
            self.done.push(statement)?;
            return Ok(());
        }
        if self.is_full() {
            self.close(alloc)?;
        }
        self.piece.push(statement)?;
        Ok(())
    }

    /// Closes the open piece: two enables or more are one static seq.
    pub(crate) fn close(&mut self, alloc: Global) -> Result<(), Memory>
        ensures done { (long : List ℕ → Bool) (later : PlainStatements) →
            OnOk result (before (done_of self.new) later ≡
            before (done_of self.old) (closed long (open_of self.old) later)) }
        ensures piece { OnOk result (open_of self.new ≡ []) }
    {
        let mut piece = replace(&mut self.piece, Vec::new(alloc));
        if piece.len() > 1 {
            self.done.push(static_seq(alloc, piece))?;
            return Ok(());
        }
        if let Some(only) = piece.pop() {
            self.done.push(only)?;
        }
        Ok(())
    }
}

/// Enables as one static seq, at the place of the first.
fn static_seq(alloc: Global, statements: Vec<StatementItem>) -> StatementItem
    requires some { 1 < length statements.items }
    ensures value { (long : List ℕ → Bool) (later : PlainStatements) →
        StatementThen (plain_statement result) later ≡ closed long (plain_statements statements.items) later }
{
    let place = statements.as_slice()[0].place;
    StatementItem {
        attributes: Vec::new(alloc),
        form: StatementForm::StaticSeq {
            length: None,
            marks: Vec::new(alloc),
            block: Block { statements, place },
        },
        place,
    }
}
