//! The law of the first break.

ghost use Rattle.std.specs.Prelude.{◌≡◌, List, None};
ghost use Rattle.cx_text.specs.declared.diagnostics.Diagnostic.{Diagnostic};
ghost use Rattle.cx_numbering.specs.NameRules.{first_break};
ghost use Rattle.cx_names_rules.specs.Found.{first_of};

/// The first break of a list, kept from the front on, is that of the definition: by place, then by the rule's number.
pub fn kept_is_first()
    ensures { (breaks : List Diagnostic) → first_of None breaks ≡ first_break breaks }
{}
