//! The state of a net that is run.

ghost use Rattle.std.specs.Prelude.{◌≡◌, true, IfOk};
ghost use Rattle.cx_text.specs.Loading.{FitsRows, plain_loaded, words_loaded};
ghost use Rattle.cx_rules.specs.Externals.{rows_of};
ghost use Rattle.cx_net.specs.NetEdges.{net_after};
ghost use Rattle.cx_net.specs.NetMeaning.{NetLook, NetState as StateOf};
ghost use Rattle.cx_net.specs.NetRuns.{IsWholeLook, is_done, net_start};
ghost use Rattle.cx_net.specs.NetTree.{net_component_at, net_tree};
ghost use Rattle.cx_net.specs.Nets.{PlainNet};
ghost use Rattle.cx_net.specs.NetsAsData.{plain_net};
ghost use Rattle.cx_vnets.specs.Runs.{IsReady};
ghost use Rattle.cx_emit.specs.Emitted.{CanBeEmitted};
ghost use Rattle.cx_net_runs.specs.Standing.{StandsIn};
ghost use Rattle.cx_net_runs.specs.States.{CanStep, StandsFor};

use crate::cycles::{cycle, tells_done};
use cx_emit::emit;
use cx_net::Net;
use cx_text::{Loaded, Memory};
use cx_vsim::{Built, Sim, source_is_sound};
use std::alloc::Global;

/// The machine of a net's source, with the loaded words.
fn started(alloc: Global, net: &Net, loaded: &Loaded) -> Result<Built, Memory>
    requires net { CanBeEmitted (plain_net net.now) }
    requires words { FitsRows
        (rows_of (net_component_at (plain_net net.now) (plain_net net.now).main).cells)
        (plain_loaded loaded.now) }
    ensures ready { IfOk result (λ b. IsReady b.machine b.stored b.bench) }
    ensures stands { IfOk result (λ b. StandsIn (plain_net net.now)
        (net_start (net_tree (plain_net net.now)) (words_loaded (plain_loaded loaded.now))) b.machine
        b.stored) }
{
    let source = emit(alloc, net)?;
    source_is_sound(&source);
    let mut sim = Sim::new(alloc, &source)?;
    sim.load(loaded);
    Ok(sim.into_built())
}

/// A state that a net without holes comes to, and whether it is done there. It keeps the machine of the net's source.
#[derive(Drop)]
pub struct NetState {
    built: Built,
    done: bool,
}

impl NetState {
    /// The state before the edge with reset: each cell at its start, but the external memories with the loaded words, and each
    /// register 0.
    pub fn start(alloc: Global, net: &Net, loaded: &Loaded) -> Result<NetState, Memory>
        requires net { CanBeEmitted (plain_net net.now) }
        requires words { FitsRows
            (rows_of (net_component_at (plain_net net.now) (plain_net net.now).main).cells)
            (plain_loaded loaded.now) }
        ensures ready { IfOk result CanStep }
        ensures value { IfOk result (StandsFor (plain_net net.now)
            (net_start (net_tree (plain_net net.now)) (words_loaded (plain_loaded loaded.now)))) }
    {
        let mut built = started(alloc, net, loaded)?;
        let done = tells_done(&built.machine, &mut built.bench, &mut built.stored);
        Ok(NetState { built, done })
    }

    /// Whether `done` of `main` is 1 in a cycle without reset and with go, where all of the net has a value. It takes no memory.
    pub fn done(&self) -> bool
        ensures value { (net : PlainNet) (s : StateOf) (look : NetLook) → StandsFor net s self.now →
            IsWholeLook (net_tree net) true s look
            → result ≡ is_done look }
    {
        self.done
    }

    /// A cycle with or without reset and go, and the edge that ends it, where all of the net has a value. It takes no memory.
    pub fn step(&mut self, reset: bool, go: bool)
        requires ready { CanStep self.old }
        ensures ready { CanStep self.new }
        ensures value { (net : PlainNet) (s : StateOf) (look : NetLook) → StandsFor net s self.old →
            IsWholeLook (net_tree net) go s look
            → StandsFor net (net_after (net_tree net) reset go s look) self.new }
    {
        let built = &mut self.built;
        cycle(
            &built.machine,
            &mut built.bench,
            &mut built.stored,
            reset,
            go,
        );
        self.done = tells_done(&built.machine, &mut built.bench, &mut built.stored);
    }
}
