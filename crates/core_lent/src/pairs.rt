// The sweep and the pass over the errors, for a caller who has the two kinds of places that they look at, each in a struct of arrays.
ghost use Rattle.std.specs.Prelude.{◌≡◌, ◌≤◌, ◌+◌, ◌*◌, length};
ghost use Rattle.rules.specs.Polls as rules;
ghost use Rattle.laws.proofs.Bounds.{busy_count};
ghost use Rattle.core_layout.specs.Sheet.{words_each};
ghost use Rattle.core_sweeps.specs.Visits.{visit_of};
ghost use Rattle.core_polls.specs.Turns.{turn_of};
ghost use Rattle.core_sweeps.specs.Swept.{Swept, Lent, boxes_from};

use core_places::controller_pair::ControllerPair;
use core_places::controllers::Controllers;
use core_places::error_places::ErrorPlaces;
use core_places::mailboxes::Mailboxes;
use core_places::object_pair::ObjectPair;
use core_places::owners::Owners;
use core_polls::turn::Turn;
use core_sweeps::visit::Visit;

// The sweep over the objects, for a caller who has their owners and their mailboxes.
pub fn visit_pair<const N: usize>(
    visit: Visit,
    count: usize,
    owners: &Owners<N>,
    mailboxes: &mut Mailboxes<N>,
    from: usize,
    size: usize,
    two_bytes: bool,
    ram: &[u8],
    sheet: &mut [u32],
) -> usize
    requires count_in_bounds { count ≤ N }
    requires lent { Lent size count ram.now }
    requires sheet_room { words_each * (from + busy_count count mailboxes.old) ≤ length sheet.old }
    ensures { Swept (rules.visit_all (visit_of visit size two_bytes owners.now ram.now) count (boxes_from mailboxes.old))
        from sheet.old sheet.new mailboxes.new result }
{
    let mut core = ObjectPair { owners, mailboxes };
    core_sweeps::objects::visit_all(visit, count, &mut core, from, size, two_bytes, ram, sheet)
}

// The pass over the errors, for a caller who has the controllers and their errors.
pub fn errors_pair<const N: usize>(
    turn: Turn,
    total: usize,
    controllers: &Controllers<N>,
    errors: &mut ErrorPlaces<N>,
)
    requires { total ≤ N }
    ensures { errors.new ≡ rules.errors_all (turn_of turn) total controllers.now errors.old }
{
    let mut core = ControllerPair {
        controllers,
        errors,
    };
    core_polls::errors::errors_all(turn, total, &mut core);
}
