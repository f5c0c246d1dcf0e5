//! A source that is run from reset, and what its run came to.

ghost use Rattle.std.specs.Prelude.{◌≡◌, [], IfOk};
ghost use Rattle.cx_text.specs.Loading.{FitsRows, plain_loaded, words_loaded, with_words};
ghost use Rattle.cx_vtree.specs.PlainParts.{rows_of};
ghost use Rattle.cx_vtree.specs.PlainSources.{plain_source};
ghost use Rattle.cx_vtree.specs.SimRun.{SimRun};
ghost use Rattle.cx_vsim.specs.Answers.{IsDone, NamesNet, answer_of, final_words};
ghost use Rattle.cx_vsim.specs.Stands.{BuiltWith};

use crate::answers::SimAnswer;
use crate::loading::load_words;
use crate::numbers::numbers_of;
use crate::sim_laws::{instances_are_few, memories_are_arrays};
use crate::telling::told;
use crate::unloading::unload_words;
use crate::{Built, machine, memories_stand, trees_can_be_built};
use cx_text::{Loaded, Memory};
use cx_vnets::{NetPosition, Stored, machines_stay_ready, run, runs_are_same};
use cx_vtree::Source;
use std::alloc::Global;
use std::marker::Model;

/// A source that is to be run, with the words of its external memories.
#[derive(Drop)]
pub struct Sim<'a> {
    source: &'a Source,
    built: Built,
    arrays: Vec<usize>,
    places: Vec<NetPosition>,
    loaded: bool,
}

impl<'a> Model for Sim<'a> {
    ghost use Rattle.std.specs.Prelude.{[], map, if◌then◌else◌};
    ghost use Rattle.std.specs.Coded.{codes};
    ghost use Rattle.cx_vnets.specs.Stores.{plain_words};
    ghost use Rattle.cx_vtree.specs.PlainSources.{plain_source};
    ghost use Rattle.cx_vtree.specs.contracts.sources.Source as sources;
    ghost use Rattle.cx_vsim.specs.Models.{Loaded};
    ghost use Rattle.cx_vsim.specs.Stands.{SimStands, words_by};

    ghost Value = { Loaded };

    ghost coded = { Prim.hlevel (codes, sources.the_row.coded) };

    ghost view = { λ s. record { source = s.source.now; words = if s.loaded then words_by s.arrays.items (map plain_words s.built.stored.arrays.items) else [] } };

    ghost invariant = { λ s. SimStands (plain_source s.source.now) (if s.loaded then words_by s.arrays.items (map plain_words s.built.stored.arrays.items) else []) s.built s.arrays.items s.places.items };
}

/// A source that was run.
#[derive(Drop)]
pub struct SimRan<'a> {
    source: &'a Source,
    answer: SimAnswer,
    stored: Stored,
    arrays: Vec<usize>,
}

impl<'a> Model for SimRan<'a> {
    ghost use Rattle.std.specs.Coded.{codes};
    ghost use Rattle.std.specs.Prelude.{map};
    ghost use Rattle.cx_vnets.specs.Stores.{plain_words};
    ghost use Rattle.cx_vtree.specs.PlainSources.{plain_source};
    ghost use Rattle.cx_vtree.specs.contracts.sources.Source as sources;
    ghost use Rattle.cx_vsim.specs.Models.{Ended};
    ghost use Rattle.cx_vsim.specs.Stands.{RanStands, outcome_by, words_by};

    ghost Value = { Ended };

    ghost coded = { Prim.hlevel (codes, sources.the_row.coded) };

    ghost view = { λ s. record { source = s.source.now; outcome = outcome_by s.answer (words_by s.arrays.items (map plain_words s.stored.arrays.items)) } };

    ghost invariant = { λ s. RanStands (plain_source s.source.now) s.answer (map plain_words s.stored.arrays.items) s.arrays.items };
}

impl<'a> Sim<'a> {
    /// Makes all tables of a source. Until words are loaded, those of its external memories are 0.
    pub fn new(alloc: Global, source: &'a Source) -> Result<Sim<'a>, Memory>
        ensures value { IfOk result (λ sim. sim ≡ record { source = source.now; words = [] }) }
    {
        let built = machine(alloc, source)?;
        let numbers = numbers_of(alloc, source)?;
        Ok(Sim {
            source,
            built,
            arrays: numbers.arrays,
            places: numbers.places,
            loaded: false,
        })
    }

    /// Loads the words of the external memories.
    pub fn load(&mut self, loaded: &Loaded)
        requires fits { FitsRows (rows_of (plain_source self.old.source).externals) (plain_loaded loaded.now) }
        ensures value { self.new ≡ record { source = self.old.source; words = words_loaded (plain_loaded loaded.now) } }
    {
        let _ = self.source.modules();
        machines_stay_ready();
        memories_are_arrays();
        load_words(&self.arrays, &mut self.built.stored.arrays, loaded);
        self.loaded = true;
    }

    /// Gives up the machine, with the words that are loaded.
    pub fn into_built(self) -> Built
        ensures { BuiltWith (plain_source self.entry.source) self.entry.words result }
    {
        self.built
    }

    /// Runs from reset, and looks at the cycles 0 to `cycles` at most.
    pub fn run(self, cycles: u64) -> SimRan<'a>
        ensures source { result.source ≡ self.entry.source }
        ensures run { SimRun (plain_source self.entry.source) self.entry.words cycles result.outcome }
    {
        let _ = self.source.modules();
        runs_are_same();
        trees_can_be_built();
        memories_stand();
        memories_are_arrays();
        instances_are_few();
        let mut built = self.built;
        let answer = run(&built.machine, &mut built.bench, &mut built.stored, cycles);
        let answer = told(&self.places, answer);
        SimRan {
            source: self.source,
            answer,
            stored: built.stored,
            arrays: self.arrays,
        }
    }
}

impl SimRan<'_> {
    /// What the run came to.
    pub fn answer(&self) -> SimAnswer
        ensures value { result ≡ answer_of self.now.outcome }
        ensures names { NamesNet (plain_source self.now.source) result }
    {
        self.answer
    }

    /// Writes the words of the last cycle over those of memories that fit, after the answer `Done`.
    pub fn memories(&self, into: &mut Loaded)
        requires done { IsDone self.now.outcome }
        requires fits { FitsRows (rows_of (plain_source self.now.source).externals) (plain_loaded into.old) }
        ensures words { plain_loaded into.new ≡ with_words (plain_loaded into.old) (final_words self.now.outcome) }
        ensures fits { FitsRows (rows_of (plain_source self.now.source).externals) (plain_loaded into.new) }
    {
        unload_words(&self.arrays, &self.stored.arrays, into);
    }
}
