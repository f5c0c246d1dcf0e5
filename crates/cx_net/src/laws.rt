//! Laws of nets: each function is empty, and its clause is the law.

ghost use Rattle.std.specs.Prelude.{◌<◌, ◌∷◌, ℕ, length};
ghost use Rattle.cx_meaning.specs.Instances.{Path};
ghost use Rattle.cx_net.specs.NetFits.{IsNet};
ghost use Rattle.cx_net.specs.NetPaths.{LeadsTo};
ghost use Rattle.cx_net.specs.Nets.{PlainNet};

/// No cell of a net leads back to the component that it stands in.
pub fn no_cell_leads_back()
    ensures { (net : PlainNet) (k c : ℕ) (path : Path) → IsNet net → k < length net.components →
        LeadsTo net k (c ∷ path) k → ⊥ }
{}
