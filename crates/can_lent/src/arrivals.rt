// Arrived, for a caller who reads the controllers, the objects' controllers and kinds, and the settings.
ghost use Rattle.std.specs.Prelude.{◌≡◌, ◌≤◌, ◌^◌, false, length, List, ℕ, []};
ghost use Rattle.rules.specs.Calls as rules;
ghost use Rattle.rules.specs.Can.{can_format, longest_fd};
ghost use Rattle.rules.specs.Chip.{chip};
ghost use Rattle.core_places.specs.Arrays.{mailboxes_in};
ghost use Rattle.core_places.specs.Beside.{controllers_beside, errors_beside, owners_beside, mailboxes_beside};
ghost use Rattle.core_answers.specs.Answer.{verdict_reason};
ghost use Rattle.core_answers.specs.Reply.{arrival_answer};
ghost use Rattle.core_answers.specs.Performed.{Noted};
ghost use Rattle.core_lent.specs.Seen.{seen};
ghost use Rattle.can_state.specs.View.{state_of};
ghost use Rattle.can_state.specs.Beside.{settings_beside};
ghost use Rattle.can_arrivals.specs.Choice.{Chosen};
ghost use Rattle.can_arrivals.specs.Lent.{ArrivalRoom};

use can_arrivals::choice::Choice;
use can_state::settings_slices::SettingsSlices;
use core_answers::reply::Arrival;
use core_answers::reported::Reported;
use core_answers::verdict::Verdict;
use core_places::lent_mailboxes::LentMailboxes;
use core_places::lent_to_read::LentToRead;

// The whole of it behind the gate.
pub fn arrive_lent(
    gate: Verdict,
    initialised: bool,
    controller_count: usize,
    object_count: usize,
    modes: &[u8],
    requests: &[u8],
    marks: &[bool],
    controllers: &[u8],
    receivings: &[bool],
    pendings: &mut [bool],
    dones: &mut [bool],
    fulls: &mut [bool],
    payloads: &[u8],
    paddings: &[u8],
    codes: &[u32],
    masks: &[u32],
    ram: &mut [u8],
    sheet: &mut [u32],
    controller: u32,
    identifier: u32,
    sdu: &[u8],
) -> Reported<Arrival>
    requires alike { (length dones.old ≡ length pendings.old) × (length fulls.old ≡ length pendings.old) × (length pendings.old ≡ chip.objects) }
    requires room { verdict_reason gate ≡ 0 → ArrivalRoom object_count ram.old sheet.old }
    ensures reason { verdict_reason result.reply ≡ (rules.arrived chip can_format (verdict_reason gate) (state_of (seen initialised controller_count object_count (controllers_beside modes.now requests.now marks.now) (errors_beside [] [] []) (owners_beside controllers.now receivings.now []) (mailboxes_in pendings.old dones.old fulls.old)) (settings_beside payloads.now paddings.now codes.now masks.now)) ram.old controller (record { identifier = identifier; sdu = sdu.now })).reason }
    ensures answer { arrival_answer result.reply ≡ (rules.arrived chip can_format (verdict_reason gate) (state_of (seen initialised controller_count object_count (controllers_beside modes.now requests.now marks.now) (errors_beside [] [] []) (owners_beside controllers.now receivings.now []) (mailboxes_in pendings.old dones.old fulls.old)) (settings_beside payloads.now paddings.now codes.now masks.now)) ram.old controller (record { identifier = identifier; sdu = sdu.now })).answer }
    ensures mailboxes { mailboxes_in pendings.new dones.new fulls.new ≡ (rules.arrived chip can_format (verdict_reason gate) (state_of (seen initialised controller_count object_count (controllers_beside modes.now requests.now marks.now) (errors_beside [] [] []) (owners_beside controllers.now receivings.now []) (mailboxes_in pendings.old dones.old fulls.old)) (settings_beside payloads.now paddings.now codes.now masks.now)) ram.old controller (record { identifier = identifier; sdu = sdu.now })).state.core.mailboxes }
    ensures ram { ram.new ≡ (rules.arrived chip can_format (verdict_reason gate) (state_of (seen initialised controller_count object_count (controllers_beside modes.now requests.now marks.now) (errors_beside [] [] []) (owners_beside controllers.now receivings.now []) (mailboxes_in pendings.old dones.old fulls.old)) (settings_beside payloads.now paddings.now codes.now masks.now)) ram.old controller (record { identifier = identifier; sdu = sdu.now })).ram }
    ensures told { Noted (rules.arrived chip can_format (verdict_reason gate) (state_of (seen initialised controller_count object_count (controllers_beside modes.now requests.now marks.now) (errors_beside [] [] []) (owners_beside controllers.now receivings.now []) (mailboxes_in pendings.old dones.old fulls.old)) (settings_beside payloads.now paddings.now codes.now masks.now)) ram.old controller (record { identifier = identifier; sdu = sdu.now })).notifications sheet.old sheet.new result.notifications }
{
    let mut core = LentMailboxes {
        initialised,
        controller_count,
        object_count,
        modes,
        requests,
        marks,
        recoverings: &[],
        tx_errors: &[],
        rx_errors: &[],
        controllers,
        receivings,
        pools: &[],
        pendings,
        dones,
        fulls,
    };
    let settings = SettingsSlices {
        payloads,
        paddings,
        codes,
        masks,
    };
    can_arrivals::lent::arrive_lent(
        gate, &mut core, &settings, ram, sheet, controller, identifier, sdu,
    )
}

// What becomes of a frame that passed the checks.
pub fn received(
    controller: usize,
    object_count: usize,
    controllers: &[u8],
    receivings: &[bool],
    pendings: &mut [bool],
    dones: &mut [bool],
    fulls: &mut [bool],
    payloads: &[u8],
    paddings: &[u8],
    codes: &[u32],
    masks: &[u32],
    ram: &mut [u8],
    sheet: &mut [u32],
    identifier: u32,
    sdu: &[u8],
) -> Reported<Arrival>
    requires alike { (length dones.old ≡ length pendings.old) × (length fulls.old ≡ length pendings.old) × (length pendings.old ≡ chip.objects) }
    requires room { ArrivalRoom object_count ram.old sheet.old × (length sdu.now ≤ longest_fd) }
    ensures reason { verdict_reason result.reply ≡ (rules.received chip can_format (state_of (seen false 0 object_count (controllers_beside [] [] []) (errors_beside [] [] []) (owners_beside controllers.now receivings.now []) (mailboxes_in pendings.old dones.old fulls.old)) (settings_beside payloads.now paddings.now codes.now masks.now)) ram.old controller (record { identifier = identifier; sdu = sdu.now }) (rules.best_object chip can_format (state_of (seen false 0 object_count (controllers_beside [] [] []) (errors_beside [] [] []) (owners_beside controllers.now receivings.now []) (mailboxes_in pendings.old dones.old fulls.old)) (settings_beside payloads.now paddings.now codes.now masks.now)) controller (record { identifier = identifier; sdu = sdu.now }) false)).reason }
    ensures answer { arrival_answer result.reply ≡ (rules.received chip can_format (state_of (seen false 0 object_count (controllers_beside [] [] []) (errors_beside [] [] []) (owners_beside controllers.now receivings.now []) (mailboxes_in pendings.old dones.old fulls.old)) (settings_beside payloads.now paddings.now codes.now masks.now)) ram.old controller (record { identifier = identifier; sdu = sdu.now }) (rules.best_object chip can_format (state_of (seen false 0 object_count (controllers_beside [] [] []) (errors_beside [] [] []) (owners_beside controllers.now receivings.now []) (mailboxes_in pendings.old dones.old fulls.old)) (settings_beside payloads.now paddings.now codes.now masks.now)) controller (record { identifier = identifier; sdu = sdu.now }) false)).answer }
    ensures mailboxes { mailboxes_in pendings.new dones.new fulls.new ≡ (rules.received chip can_format (state_of (seen false 0 object_count (controllers_beside [] [] []) (errors_beside [] [] []) (owners_beside controllers.now receivings.now []) (mailboxes_in pendings.old dones.old fulls.old)) (settings_beside payloads.now paddings.now codes.now masks.now)) ram.old controller (record { identifier = identifier; sdu = sdu.now }) (rules.best_object chip can_format (state_of (seen false 0 object_count (controllers_beside [] [] []) (errors_beside [] [] []) (owners_beside controllers.now receivings.now []) (mailboxes_in pendings.old dones.old fulls.old)) (settings_beside payloads.now paddings.now codes.now masks.now)) controller (record { identifier = identifier; sdu = sdu.now }) false)).state.core.mailboxes }
    ensures ram { ram.new ≡ (rules.received chip can_format (state_of (seen false 0 object_count (controllers_beside [] [] []) (errors_beside [] [] []) (owners_beside controllers.now receivings.now []) (mailboxes_in pendings.old dones.old fulls.old)) (settings_beside payloads.now paddings.now codes.now masks.now)) ram.old controller (record { identifier = identifier; sdu = sdu.now }) (rules.best_object chip can_format (state_of (seen false 0 object_count (controllers_beside [] [] []) (errors_beside [] [] []) (owners_beside controllers.now receivings.now []) (mailboxes_in pendings.old dones.old fulls.old)) (settings_beside payloads.now paddings.now codes.now masks.now)) controller (record { identifier = identifier; sdu = sdu.now }) false)).ram }
    ensures told { Noted (rules.received chip can_format (state_of (seen false 0 object_count (controllers_beside [] [] []) (errors_beside [] [] []) (owners_beside controllers.now receivings.now []) (mailboxes_in pendings.old dones.old fulls.old)) (settings_beside payloads.now paddings.now codes.now masks.now)) ram.old controller (record { identifier = identifier; sdu = sdu.now }) (rules.best_object chip can_format (state_of (seen false 0 object_count (controllers_beside [] [] []) (errors_beside [] [] []) (owners_beside controllers.now receivings.now []) (mailboxes_in pendings.old dones.old fulls.old)) (settings_beside payloads.now paddings.now codes.now masks.now)) controller (record { identifier = identifier; sdu = sdu.now }) false)).notifications sheet.old sheet.new result.notifications }
{
    let mut core = LentMailboxes {
        initialised: false,
        controller_count: 0,
        object_count,
        modes: &[],
        requests: &[],
        marks: &[],
        recoverings: &[],
        tx_errors: &[],
        rx_errors: &[],
        controllers,
        receivings,
        pools: &[],
        pendings,
        dones,
        fulls,
    };
    let settings = SettingsSlices {
        payloads,
        paddings,
        codes,
        masks,
    };
    can_arrivals::received::received(
        &mut core, &settings, ram, sheet, controller, identifier, sdu,
    )
}

// The object that it goes to.
pub fn choose(
    controller: usize,
    identifier: u32,
    count: usize,
    controllers: &[u8],
    receivings: &[bool],
    fulls: &[bool],
    payloads: &[u8],
    codes: &[u32],
    masks: &[u32],
) -> Choice
    requires { count ≤ 2 ^ 32 }
    ensures { (sdu : List ℕ) → Chosen (state_of (seen false 0 count (controllers_beside [] [] []) (errors_beside [] [] []) (owners_beside controllers.now receivings.now []) (mailboxes_beside [] [] fulls.now)) (settings_beside payloads.now [] codes.now masks.now)) controller (record { identifier = identifier; sdu = sdu }) result }
{
    let core = LentToRead {
        initialised: false,
        controller_count: 0,
        object_count: count,
        modes: &[],
        requests: &[],
        marks: &[],
        recoverings: &[],
        tx_errors: &[],
        rx_errors: &[],
        controllers,
        receivings,
        pools: &[],
        pendings: &[],
        dones: &[],
        fulls,
    };
    let settings = SettingsSlices {
        payloads,
        paddings: &[],
        codes,
        masks,
    };
    can_arrivals::choice::choose(&core, &settings, controller, identifier)
}
