// What a poll over the controllers leaves of their errors. Nothing is told of them, so they have a pass of their own, before the controllers
// enter their next modes.
ghost use Rattle.std.specs.Prelude.{◌≡◌, ◌≤◌, ◌<◌};
ghost use Rattle.rules.specs.Core.{with_errors};
ghost use Rattle.rules.specs.Polls as rules;
ghost use Rattle.core_places.specs.Names.{SameNames};
ghost use Rattle.core_polls.specs.Turns.{turn_of};

use crate::turn::{Turn, errors_after, turn_due};
use core_places::set_places::SetErrors;

// The errors of controller c, where its turn is due.
fn errors_one<K: SetErrors>(turn: Turn, c: usize, core: &mut K)
    requires { c < K.error_places core.old }
    ensures rest { K.core core.new ≡ with_errors (K.core core.old) (K.core core.new).errors }
    ensures errors { (K.core core.new).errors ≡ rules.errors_one (turn_of turn) (K.core core.old).controllers c (K.core core.old).errors }
    ensures places { (K.controllers core.new ≡ K.controllers core.old) × (K.objects core.new ≡ K.objects core.old) × (K.error_places core.new ≡ K.error_places core.old) }
    ensures memory { SameNames (K.memory core.new) (K.memory core.old) }
{
    let k = core.read_controller(c);
    if turn_due(turn, k) {
        let e = core.read_errors(c);
        core.set_errors(c, errors_after(turn, k, e));
    }
}

// Those of the first total controllers.
#[tactic(auto, using(crate::proofs::Passes::errors_none, crate::proofs::Passes::errors_more))]
pub fn errors_all<K: SetErrors>(turn: Turn, total: usize, core: &mut K)
    requires { total ≤ K.error_places core.old }
    ensures rest { K.core core.new ≡ with_errors (K.core core.old) (K.core core.new).errors }
    ensures errors { (K.core core.new).errors ≡ rules.errors_all (turn_of turn) total (K.core core.old).controllers (K.core core.old).errors }
    ensures places { (K.controllers core.new ≡ K.controllers core.old) × (K.objects core.new ≡ K.objects core.old) × (K.error_places core.new ≡ K.error_places core.old) }
    ensures memory { SameNames (K.memory core.new) (K.memory core.old) }
{
    for c in 0..total {
        errors_one(turn, c, core);
    }
}
