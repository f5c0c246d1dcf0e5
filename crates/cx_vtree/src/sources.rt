//! Sources: all modules of a text, with the memories that data files speak of.

ghost use Rattle.std.specs.Prelude.{IsTrue};
ghost use Rattle.cx_vtree.specs.Sound.{is_sound};
ghost use Rattle.cx_vtree.specs.Sources.{source_of};

use crate::externals::External;
use crate::modules::Module;
use cx_text::{Memory, MemoryRow};
use std::alloc::Global;

/// A source that breaks no rule of `specs/Sound.antt`.
#[derive(Drop)]
pub struct Source {
    externals: Vec<External>,
    modules: Vec<Module>,
    ghost sound: { IsTrue (is_sound (source_of externals.items modules.items)) },
}

impl Source {
    ghost use Rattle.std.specs.Prelude.{◌≡◌, IfOk};
    ghost use Rattle.cx_text.specs.Loading.{plain_rows};
    ghost use Rattle.cx_vtree.specs.PlainParts.{plain_externals, plain_modules, rows_of};
    ghost use Rattle.cx_vtree.specs.PlainSources.{plain_source};

    /// Keeps parts that break no rule.
    pub fn new(externals: Vec<External>, modules: Vec<Module>) -> Source
        requires { IsTrue (is_sound (source_of externals.items modules.items)) }
        ensures { plain_source result ≡ source_of externals.items modules.items }
    {
        Source { externals, modules }
    }

    /// The external memories, in the order of the text.
    pub fn externals(&self) -> &[External]
        ensures value { plain_externals result.now ≡ (plain_source self.now).externals }
        ensures sound { IsTrue (is_sound (plain_source self.now)) }
    {
        &self.externals
    }

    /// The modules, in the order of the text. The last one is `main`.
    pub fn modules(&self) -> &[Module]
        ensures value { plain_modules result.now ≡ (plain_source self.now).modules }
        ensures sound { IsTrue (is_sound (plain_source self.now)) }
    {
        &self.modules
    }

    /// The external memories as data files know them, in their order.
    pub fn rows(&self, alloc: Global) -> Result<Vec<MemoryRow>, Memory>
        ensures { IfOk result (λ rows. plain_rows rows.items ≡ rows_of (plain_source self.now).externals) }
    {
        let mut rows = Vec::with_capacity(alloc, self.externals.len())?;
        for external in &self.externals {
            rows.push(external.row(alloc)?)?;
        }
        Ok(rows)
    }
}
