// The events.
ghost use Rattle.std.specs.Prelude.{◌≡◌, ◌≤◌, length, []};
ghost use Rattle.rules.specs.Events as rules;
ghost use Rattle.core_layout.specs.Sheet.{words_each};
ghost use Rattle.core_places.specs.Arrays.{controllers_in, errors_in, mailboxes_in};
ghost use Rattle.core_places.specs.Beside.{controllers_beside, errors_beside, owners_beside};
ghost use Rattle.core_answers.specs.Answer.{verdict_reason};
ghost use Rattle.core_answers.specs.Performed.{Noted};
ghost use Rattle.core_lent.specs.Seen.{seen};

use core_answers::reported::Reported;
use core_answers::verdict::Verdict;
use core_places::lent_core::LentCore;
use core_places::lent_mailboxes::LentMailboxes;

// A bus-off, for a caller who has the controllers alone.
pub fn off(
    gate: Verdict,
    initialised: bool,
    count: usize,
    modes: &mut [u8],
    requests: &mut [u8],
    marks: &mut [bool],
    controller: u32,
) -> Verdict
    requires alike { (length requests.old ≡ length modes.old) × (length marks.old ≡ length modes.old) }
    requires count_in_bounds { verdict_reason gate ≡ 0 → count ≤ length modes.old }
    ensures reason { verdict_reason result ≡ (rules.bus_off_detected (verdict_reason gate) (seen initialised count 0 (controllers_in modes.old requests.old marks.old) (errors_in [] [] []) (owners_beside [] [] []) (mailboxes_in [] [] [])) [] controller).reason }
    ensures controllers { controllers_in modes.new requests.new marks.new ≡ (rules.bus_off_detected (verdict_reason gate) (seen initialised count 0 (controllers_in modes.old requests.old marks.old) (errors_in [] [] []) (owners_beside [] [] []) (mailboxes_in [] [] [])) [] controller).state.controllers }
{
    let mut core = LentCore {
        initialised,
        controller_count: count,
        object_count: 0,
        modes,
        requests,
        marks,
        recoverings: &mut [],
        tx_errors: &mut [],
        rx_errors: &mut [],
        controllers: &[],
        receivings: &[],
        pools: &[],
        pendings: &mut [],
        dones: &mut [],
        fulls: &mut [],
    };
    core_events::bus_off_detected::bus_off_detected(gate, &mut core, controller)
}

// A frame that was sent, for a caller who reads the controllers, and the objects' controllers and kinds.
pub fn sent(
    gate: Verdict,
    initialised: bool,
    object_count: usize,
    modes: &[u8],
    requests: &[u8],
    marks: &[bool],
    controllers: &[u8],
    receivings: &[bool],
    pendings: &mut [bool],
    dones: &mut [bool],
    fulls: &mut [bool],
    object: u32,
) -> Verdict
    requires alike { (length dones.old ≡ length pendings.old) × (length fulls.old ≡ length pendings.old) }
    requires count_in_bounds { verdict_reason gate ≡ 0 → object_count ≤ length pendings.old }
    ensures reason { verdict_reason result
        ≡ (rules.tx_complete (verdict_reason gate)
        (seen initialised 0 object_count (controllers_beside modes.now requests.now marks.now) (errors_beside [] [] []) (owners_beside controllers.now receivings.now []) (mailboxes_in pendings.old dones.old fulls.old)) [] object).reason }
    ensures mailboxes { mailboxes_in pendings.new dones.new fulls.new
        ≡ (rules.tx_complete (verdict_reason gate)
        (seen initialised 0 object_count (controllers_beside modes.now requests.now marks.now) (errors_beside [] [] []) (owners_beside controllers.now receivings.now []) (mailboxes_in pendings.old dones.old fulls.old)) [] object).state.mailboxes }
{
    let mut core = LentMailboxes {
        initialised,
        controller_count: 0,
        object_count,
        modes,
        requests,
        marks,
        recoverings: &[],
        tx_errors: &[],
        rx_errors: &[],
        controllers,
        receivings,
        pools: &[],
        pendings,
        dones,
        fulls,
    };
    core_events::tx_complete::tx_complete(gate, &mut core, object)
}

// Counted errors, for a caller who has the controllers and their errors.
pub fn counted(
    gate: Verdict,
    initialised: bool,
    count: usize,
    modes: &mut [u8],
    requests: &mut [u8],
    marks: &mut [bool],
    recoverings: &mut [bool],
    tx_errors: &mut [u32],
    rx_errors: &mut [u32],
    sheet: &mut [u32],
    controller: u32,
    transmit: u32,
    receive: u32,
) -> Reported<()>
    requires alike { (length requests.old ≡ length modes.old) × (length marks.old ≡ length modes.old)
        × (length tx_errors.old ≡ length recoverings.old) × (length rx_errors.old ≡ length recoverings.old) }
    requires room { verdict_reason gate ≡ 0 → (count ≤ length modes.old) × (count ≤ length recoverings.old) × (words_each ≤ length sheet.old) }
    ensures reason { verdict_reason result.reply
        ≡ (rules.errors_counted (verdict_reason gate)
        (seen initialised count 0 (controllers_in modes.old requests.old marks.old) (errors_in recoverings.old tx_errors.old rx_errors.old) (owners_beside [] [] []) (mailboxes_in [] [] [])) [] controller transmit receive).reason }
    ensures told { Noted (rules.errors_counted (verdict_reason gate)
        (seen initialised count 0 (controllers_in modes.old requests.old marks.old) (errors_in recoverings.old tx_errors.old rx_errors.old) (owners_beside [] [] []) (mailboxes_in [] [] [])) [] controller transmit receive).notifications sheet.old sheet.new result.notifications }
    ensures controllers { controllers_in modes.new requests.new marks.new
        ≡ (rules.errors_counted (verdict_reason gate)
        (seen initialised count 0 (controllers_in modes.old requests.old marks.old) (errors_in recoverings.old tx_errors.old rx_errors.old) (owners_beside [] [] []) (mailboxes_in [] [] [])) [] controller transmit receive).state.controllers }
    ensures errors { errors_in recoverings.new tx_errors.new rx_errors.new
        ≡ (rules.errors_counted (verdict_reason gate)
        (seen initialised count 0 (controllers_in modes.old requests.old marks.old) (errors_in recoverings.old tx_errors.old rx_errors.old) (owners_beside [] [] []) (mailboxes_in [] [] [])) [] controller transmit receive).state.errors }
{
    let mut core = LentCore {
        initialised,
        controller_count: count,
        object_count: 0,
        modes,
        requests,
        marks,
        recoverings,
        tx_errors,
        rx_errors,
        controllers: &[],
        receivings: &[],
        pools: &[],
        pendings: &mut [],
        dones: &mut [],
        fulls: &mut [],
    };
    core_events::errors_counted::errors_counted(
        gate, &mut core, sheet, controller, transmit, receive,
    )
}
