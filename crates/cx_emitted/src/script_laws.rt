//! What follows for the source of an accepted design: the function does nothing but call others, and its clause is the law.

ghost use Rattle.cx_emitted.specs.ScriptLaws.{SourcesRealiseAlways};

use cx_control::laws::instances_keep_rules;

/// From any power-up state the source of an accepted design without static components passes every script of waiting
/// and running that the design passes, and behind it holds the words of the design's state and runs as `main` from
/// there.
pub fn sources_realise_always()
    ensures { SourcesRealiseAlways }
{
    instances_keep_rules();
}
