//! Names that the language knows.

ghost use Rattle.std.specs.Prelude.{◌≡◌};
ghost use Rattle.cx_numbering.specs.Names.{same_name, is_own_name as is_own_name_of};

use cx_text::Name;

/// Whether a name is this text.
#[tactic(auto, using(crate::proofs::NameRules::equal_names))]
pub fn is_named(name: &Name, text: &[u8]) -> bool
    ensures value { result ≡ same_name text.now name.now }
    ensures turned { result ≡ same_name name.now text.now }
{
    text == name.bytes()
}

/// Whether every component has a port of this name: go, clk, reset and done.
#[tactic(auto, using(crate::proofs::NameRules::own_names))]
pub fn is_own_name(name: &Name) -> bool
    ensures { result ≡ is_own_name_of name.now }
{
    is_named(name, b"go")
        || is_named(name, b"clk")
        || is_named(name, b"reset")
        || is_named(name, b"done")
}
