//! What a statement reads, by the links of cells.

ghost use Rattle.std.specs.Prelude.{◌↔◌, ℕ};
ghost use Rattle.cx_graphs.specs.Graphs.{Edges, IsReached};
ghost use Rattle.cx_meaning.specs.Designs.{PlainComponent, PlainStatement};
ghost use Rattle.cx_rules.specs.Footprints.{Reads};
ghost use Rattle.cx_rules.specs.Invokes.{ReadsAll};
ghost use Rattle.cx_race.specs.Cells.{named_all_by, named_by};
ghost use Rattle.cx_race.specs.Links.{AreLinks};

/// A statement reads exactly the cells that are reached, by the links of the cells, from those that it names.
pub fn reads_by_links()
    ensures { (part : PlainComponent) (g : Edges) (s : PlainStatement) (c : ℕ) → AreLinks part g →
        (Reads part s c ↔ IsReached g (named_by part s) c) }
{}

/// With its static invokes, a statement reads exactly the cells that are so reached from those that it drives or names.
pub fn reads_all_by_links()
    ensures { (part : PlainComponent) (g : Edges) (s : PlainStatement) (c : ℕ) → AreLinks part g →
        (ReadsAll part s c ↔ IsReached g (named_all_by part s) c) }
{}
