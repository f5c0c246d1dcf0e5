//! External memories.

ghost use Rattle.std.specs.Prelude.{◌≡◌, ℕ, Some, map, slice_get, true};
ghost use Rattle.cx_vtree.specs.Plain.{PlainSource, PlainExternal};
ghost use Rattle.cx_vtree.specs.InstanceTree.{instances_of};
ghost use Rattle.cx_vtree.specs.SimRun.{instance_named};
ghost use Rattle.cx_vtree.specs.Sound.{is_sound};
ghost use Rattle.cx_vlaws.specs.Names.{AreApart};
ghost use Rattle.cx_vlaws.specs.Memories.{IsMemory};

/// Each external memory is the only array of an instance of `main`, with as many words as its sizes say.
pub fn externals_are_memories()
    ensures { (source : PlainSource) (k : ℕ) (e : PlainExternal) → is_sound source ≡ true →
        slice_get source.externals k ≡ Some e
        → IsMemory (instances_of source) e }
{}

/// Two external memories have different names, and are in different instances.
pub fn externals_are_apart()
    ensures names { (source : PlainSource) → is_sound source ≡ true → AreApart (map (λ e. e.name) source.externals) }
    ensures instances { (source : PlainSource) → is_sound source ≡ true →
        AreApart (map (λ e. e.instance) source.externals) }
    ensures numbers { (source : PlainSource) (j k i : ℕ) (d e : PlainExternal) → is_sound source ≡ true
        → slice_get source.externals j ≡ Some d → slice_get source.externals k ≡ Some e
        → instance_named (instances_of source) 0 d.instance ≡ Some i
        → instance_named (instances_of source) 0 e.instance ≡ Some i → j ≡ k }
{}
