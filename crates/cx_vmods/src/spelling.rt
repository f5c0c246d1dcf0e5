//! Names in the text of a module.

ghost use Rattle.std.specs.Prelude.{◌≡◌, IfOk};
ghost use Rattle.cx_vmods.specs.Spelling as plain;

use cx_text::{Memory, Name};
use std::alloc::Global;

/// A name in the text: `go` and `done` are as they are, and another stands behind `cx_`.
#[tactic(auto, unfolding(crate::specs::Spelling::spelled))]
pub fn spelled(alloc: Global, name: &str) -> Result<Name, Memory>
    ensures value { IfOk result (λ n. n ≡ plain.spelled name.now) }
{
    if name == "go" || name == "done" {
        return Name::from_bytes(alloc, name.as_bytes());
    }
    let mut bytes = Vec::from_slice(alloc, b"cx_")?;
    bytes.extend_from_slice(name.as_bytes())?;
    Name::from_bytes(alloc, &bytes)
}
