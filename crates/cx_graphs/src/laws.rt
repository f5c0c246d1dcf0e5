//! A law of graphs: the function does nothing, and its clause is the law.

ghost use Rattle.std.specs.Prelude.{◌≡◌, ℕ, true};
ghost use Rattle.cx_graphs.specs.Graphs.{Edges};
ghost use Rattle.cx_graphs.specs.Grounds.{IsGrounded, is_grounded};

/// What is found grounded is what is grounded.
pub fn found_is_grounded()
    ensures sound { (g : Edges) (n : ℕ) → is_grounded g n ≡ true → IsGrounded g n }
    ensures all { (g : Edges) (n : ℕ) → IsGrounded g n → is_grounded g n ≡ true }
{}
