// The polls, and the sweeps that they make.
ghost use Rattle.std.specs.Prelude.{◌≡◌, ◌≤◌, ◌+◌, ◌*◌, ◌^◌, false, length, []};
ghost use Rattle.rules.specs.Bytes.{splice};
ghost use Rattle.rules.specs.Notification.{all_words};
ghost use Rattle.rules.specs.Polls as rules;
ghost use Rattle.rules.specs.Polls.{after_sweep};
ghost use Rattle.laws.proofs.Bounds.{busy_count};
ghost use Rattle.core_layout.specs.Sheet.{words_each};
ghost use Rattle.core_places.specs.Arrays.{controllers_in, errors_in, mailboxes_in};
ghost use Rattle.core_places.specs.Beside.{controllers_beside, errors_beside, owners_beside};
ghost use Rattle.core_answers.specs.Answer.{verdict_reason};
ghost use Rattle.core_answers.specs.Performed.{Noted};
ghost use Rattle.core_sweeps.specs.Visits.{visit_of};
ghost use Rattle.core_sweeps.specs.Swept.{Swept, Lent, boxes_from};
ghost use Rattle.core_polls.specs.Turns.{turn_of};
ghost use Rattle.core_polls.specs.Swept.{ObjectRoom, ControllerRoom};
ghost use Rattle.core_lent.specs.Seen.{seen};

use core_answers::reported::Reported;
use core_answers::verdict::Verdict;
use core_places::lent_core::LentCore;
use core_places::lent_errors::LentErrors;
use core_places::lent_mailboxes::LentMailboxes;
use core_polls::turn::Turn;
use core_sweeps::visit::Visit;

// The sweep over the objects, for a caller who has their controllers and their mailboxes.
pub fn visit_all(
    visit: Visit,
    count: usize,
    controllers: &[u8],
    pendings: &mut [bool],
    dones: &mut [bool],
    fulls: &mut [bool],
    from: usize,
    size: usize,
    two_bytes: bool,
    ram: &[u8],
    sheet: &mut [u32],
) -> usize
    requires alike { (length dones.old ≡ length pendings.old) × (length fulls.old ≡ length pendings.old) }
    requires count_in_bounds { count ≤ length pendings.old }
    requires lent { Lent size count ram.now }
    requires sheet_room { words_each * (from + busy_count count (mailboxes_in pendings.old dones.old fulls.old)) ≤ length sheet.old }
    ensures { Swept (rules.visit_all (visit_of visit size two_bytes (owners_beside controllers.now [] []) ram.now) count
        (boxes_from (mailboxes_in pendings.old dones.old fulls.old)))
        from sheet.old sheet.new
        (mailboxes_in pendings.new dones.new fulls.new) result }
{
    let mut core = LentMailboxes {
        initialised: false,
        controller_count: 0,
        object_count: 0,
        modes: &[],
        requests: &[],
        marks: &[],
        recoverings: &[],
        tx_errors: &[],
        rx_errors: &[],
        controllers,
        receivings: &[],
        pools: &[],
        pendings,
        dones,
        fulls,
    };
    core_sweeps::objects::visit_all(visit, count, &mut core, from, size, two_bytes, ram, sheet)
}

// The pass over the errors, for a caller who reads the controllers.
pub fn errors_all(
    turn: Turn,
    total: usize,
    modes: &[u8],
    requests: &[u8],
    marks: &[bool],
    recoverings: &mut [bool],
    tx_errors: &mut [u32],
    rx_errors: &mut [u32],
)
    requires alike { (length tx_errors.old ≡ length recoverings.old) × (length rx_errors.old ≡ length recoverings.old) }
    requires total_in_bounds { total ≤ length recoverings.old }
    ensures { errors_in recoverings.new tx_errors.new rx_errors.new
        ≡ rules.errors_all (turn_of turn) total (controllers_beside modes.now requests.now marks.now)
        (errors_in recoverings.old tx_errors.old rx_errors.old) }
{
    let mut core = LentErrors {
        initialised: false,
        controller_count: 0,
        object_count: 0,
        modes,
        requests,
        marks,
        recoverings,
        tx_errors,
        rx_errors,
        controllers: &[],
        receivings: &[],
        pools: &[],
        pendings: &[],
        dones: &[],
        fulls: &[],
    };
    core_polls::errors::errors_all(turn, total, &mut core);
}

// The turns of all controllers, for a caller who has them, the objects' controllers and the mailboxes.
pub fn turn_all(
    turn: Turn,
    total: usize,
    modes: &mut [u8],
    requests: &mut [u8],
    marks: &mut [bool],
    count: usize,
    controllers: &[u8],
    pendings: &mut [bool],
    dones: &mut [bool],
    fulls: &mut [bool],
    size: usize,
    ram: &[u8],
    sheet: &mut [u32],
) -> usize
    requires alike { (length requests.old ≡ length modes.old) × (length marks.old ≡ length modes.old)
        × (length dones.old ≡ length pendings.old) × (length fulls.old ≡ length pendings.old) }
    requires total_in_bounds { (total ≤ 2 ^ 32) × (total ≤ length modes.old) }
    requires count_in_bounds { count ≤ length pendings.old }
    requires lent { Lent size count ram.now }
    requires sheet_room { words_each * (total + count) ≤ length sheet.old }
    ensures count { result ≡ 0 + length (rules.turn_all size (turn_of turn)
        (seen false total count (controllers_in modes.old requests.old marks.old) (errors_in [] [] []) (owners_beside controllers.now [] []) (mailboxes_in pendings.old dones.old fulls.old)) ram.now).boxes.notifications }
    ensures sheet { sheet.new ≡ splice (words_each * 0) (all_words (rules.turn_all size (turn_of turn)
        (seen false total count (controllers_in modes.old requests.old marks.old) (errors_in [] [] []) (owners_beside controllers.now [] []) (mailboxes_in pendings.old dones.old fulls.old)) ram.now).boxes.notifications) sheet.old }
    ensures controllers { controllers_in modes.new requests.new marks.new ≡ (after_sweep (seen false total count (controllers_in modes.old requests.old marks.old) (errors_in [] [] []) (owners_beside controllers.now [] []) (mailboxes_in pendings.old dones.old fulls.old)) (rules.turn_all size (turn_of turn)
        (seen false total count (controllers_in modes.old requests.old marks.old) (errors_in [] [] []) (owners_beside controllers.now [] []) (mailboxes_in pendings.old dones.old fulls.old)) ram.now)).controllers }
    ensures mailboxes { mailboxes_in pendings.new dones.new fulls.new ≡ (after_sweep (seen false total count (controllers_in modes.old requests.old marks.old) (errors_in [] [] []) (owners_beside controllers.now [] []) (mailboxes_in pendings.old dones.old fulls.old)) (rules.turn_all size (turn_of turn)
        (seen false total count (controllers_in modes.old requests.old marks.old) (errors_in [] [] []) (owners_beside controllers.now [] []) (mailboxes_in pendings.old dones.old fulls.old)) ram.now)).mailboxes }
{
    let mut core = LentCore {
        initialised: false,
        controller_count: total,
        object_count: count,
        modes,
        requests,
        marks,
        recoverings: &mut [],
        tx_errors: &mut [],
        rx_errors: &mut [],
        controllers,
        receivings: &[],
        pools: &[],
        pendings,
        dones,
        fulls,
    };
    core_polls::controllers::turn_all(turn, &mut core, size, ram, sheet)
}

// A poll over the controllers, for a caller who has them, their errors, the objects' controllers and the mailboxes.
pub fn poll_controllers(
    gate: Verdict,
    initialised: bool,
    turn: Turn,
    total: usize,
    modes: &mut [u8],
    requests: &mut [u8],
    marks: &mut [bool],
    recoverings: &mut [bool],
    tx_errors: &mut [u32],
    rx_errors: &mut [u32],
    count: usize,
    controllers: &[u8],
    pendings: &mut [bool],
    dones: &mut [bool],
    fulls: &mut [bool],
    size: usize,
    ram: &[u8],
    sheet: &mut [u32],
) -> Reported<()>
    requires alike { (length requests.old ≡ length modes.old) × (length marks.old ≡ length modes.old)
        × (length tx_errors.old ≡ length recoverings.old) × (length rx_errors.old ≡ length recoverings.old)
        × (length dones.old ≡ length pendings.old) × (length fulls.old ≡ length pendings.old) }
    requires room { verdict_reason gate ≡ 0
        → ControllerRoom size (length modes.old) (length pendings.old)
        (seen initialised total count (controllers_in modes.old requests.old marks.old) (errors_in recoverings.old tx_errors.old rx_errors.old)
        (owners_beside controllers.now [] []) (mailboxes_in pendings.old dones.old fulls.old)) ram.now sheet.old }
    requires errors_in_bounds { verdict_reason gate ≡ 0 → total ≤ length recoverings.old }
    ensures reason { verdict_reason result.reply
        ≡ (rules.controllers_polled (verdict_reason gate) size (turn_of turn)
        (seen initialised total count (controllers_in modes.old requests.old marks.old) (errors_in recoverings.old tx_errors.old rx_errors.old)
        (owners_beside controllers.now [] []) (mailboxes_in pendings.old dones.old fulls.old)) ram.now).reason }
    ensures told { Noted (rules.controllers_polled (verdict_reason gate) size (turn_of turn)
        (seen initialised total count (controllers_in modes.old requests.old marks.old) (errors_in recoverings.old tx_errors.old rx_errors.old)
        (owners_beside controllers.now [] []) (mailboxes_in pendings.old dones.old fulls.old)) ram.now).notifications sheet.old sheet.new result.notifications }
    ensures controllers { controllers_in modes.new requests.new marks.new
        ≡ (rules.controllers_polled (verdict_reason gate) size (turn_of turn)
        (seen initialised total count (controllers_in modes.old requests.old marks.old) (errors_in recoverings.old tx_errors.old rx_errors.old)
        (owners_beside controllers.now [] []) (mailboxes_in pendings.old dones.old fulls.old)) ram.now).state.controllers }
    ensures errors { errors_in recoverings.new tx_errors.new rx_errors.new
        ≡ (rules.controllers_polled (verdict_reason gate) size (turn_of turn)
        (seen initialised total count (controllers_in modes.old requests.old marks.old) (errors_in recoverings.old tx_errors.old rx_errors.old)
        (owners_beside controllers.now [] []) (mailboxes_in pendings.old dones.old fulls.old)) ram.now).state.errors }
    ensures mailboxes { mailboxes_in pendings.new dones.new fulls.new
        ≡ (rules.controllers_polled (verdict_reason gate) size (turn_of turn)
        (seen initialised total count (controllers_in modes.old requests.old marks.old) (errors_in recoverings.old tx_errors.old rx_errors.old)
        (owners_beside controllers.now [] []) (mailboxes_in pendings.old dones.old fulls.old)) ram.now).state.mailboxes }
{
    let mut core = LentCore {
        initialised,
        controller_count: total,
        object_count: count,
        modes,
        requests,
        marks,
        recoverings,
        tx_errors,
        rx_errors,
        controllers,
        receivings: &[],
        pools: &[],
        pendings,
        dones,
        fulls,
    };
    core_polls::poll::poll_controllers(gate, turn, &mut core, size, ram, sheet)
}

// A poll over the objects, for a caller who has their controllers and their mailboxes.
pub fn poll_objects(
    gate: Verdict,
    visit: Visit,
    count: usize,
    controllers: &[u8],
    pendings: &mut [bool],
    dones: &mut [bool],
    fulls: &mut [bool],
    size: usize,
    two_bytes: bool,
    ram: &[u8],
    sheet: &mut [u32],
) -> Reported<()>
    requires alike { (length dones.old ≡ length pendings.old) × (length fulls.old ≡ length pendings.old) }
    requires room { verdict_reason gate ≡ 0
        → ObjectRoom size (length pendings.old)
        (seen false 0 count (controllers_beside [] [] []) (errors_beside [] [] []) (owners_beside controllers.now [] []) (mailboxes_in pendings.old dones.old fulls.old)) ram.now sheet.old }
    ensures reason { verdict_reason result.reply
        ≡ (rules.objects_polled (verdict_reason gate) (visit_of visit size two_bytes (owners_beside controllers.now [] []) ram.now)
        (seen false 0 count (controllers_beside [] [] []) (errors_beside [] [] []) (owners_beside controllers.now [] []) (mailboxes_in pendings.old dones.old fulls.old)) ram.now).reason }
    ensures told { Noted (rules.objects_polled (verdict_reason gate) (visit_of visit size two_bytes (owners_beside controllers.now [] []) ram.now)
        (seen false 0 count (controllers_beside [] [] []) (errors_beside [] [] []) (owners_beside controllers.now [] []) (mailboxes_in pendings.old dones.old fulls.old)) ram.now).notifications sheet.old sheet.new result.notifications }
    ensures mailboxes { mailboxes_in pendings.new dones.new fulls.new
        ≡ (rules.objects_polled (verdict_reason gate) (visit_of visit size two_bytes (owners_beside controllers.now [] []) ram.now)
        (seen false 0 count (controllers_beside [] [] []) (errors_beside [] [] []) (owners_beside controllers.now [] []) (mailboxes_in pendings.old dones.old fulls.old)) ram.now).state.mailboxes }
{
    let mut core = LentMailboxes {
        initialised: false,
        controller_count: 0,
        object_count: count,
        modes: &[],
        requests: &[],
        marks: &[],
        recoverings: &[],
        tx_errors: &[],
        rx_errors: &[],
        controllers,
        receivings: &[],
        pools: &[],
        pendings,
        dones,
        fulls,
    };
    core_polls::poll::poll_objects(gate, visit, &mut core, size, two_bytes, ram, sheet)
}
