//! What a run came to, by instances.

ghost use Rattle.std.specs.Prelude.{◌≡◌, ℕ, List, length};
ghost use Rattle.cx_vtree.specs.InstanceTree.{Placed};
ghost use Rattle.cx_vnets.specs.RunsFlat.{IsNet};
ghost use Rattle.cx_velab.specs.Tables.{all_places};
ghost use Rattle.cx_vsim.specs.Stands.{IsPlaced, IsToldAs, TellsNet};
ghost use Rattle.cx_vsim.specs.declared.answers.SimAnswer.TheVariants as answers;

use crate::answers::SimAnswer;
use crate::instance_of;
use cx_vnets::{NetPosition, RunAnswer};

/// The answer that a net has no value.
fn net_of(places: &[NetPosition], net: usize) -> SimAnswer
    requires there { IsPlaced places.now net }
    ensures { (tree : List Placed) (i k : ℕ) → places.now ≡ all_places tree (length tree) →
        IsNet tree net i k → result ≡ answers.Loop i k }
{
    let instance = instance_of(places, net);
    SimAnswer::Loop {
        instance: instance as u32,
        net: (net - places[instance].nets as usize) as u32,
    }
}

/// The answer of a run by instances.
pub(crate) fn told(places: &[NetPosition], answer: RunAnswer) -> SimAnswer
    requires there { TellsNet places.now answer }
    ensures { IsToldAs places.now answer result }
{
    match answer {
        RunAnswer::Done(cycle) => SimAnswer::Done(cycle),
        RunAnswer::Loop(net) => net_of(places, net),
        RunAnswer::More => SimAnswer::More,
    }
}
