// Write, for a caller who reads the controllers and the owners, and has the settings of the object that is named and the padding values of the others.
ghost use Rattle.std.specs.Prelude.{◌≡◌, length, []};
ghost use Rattle.rules.specs.Calls.{written};
ghost use Rattle.rules.specs.Can.{can_format};
ghost use Rattle.rules.specs.Chip.{chip};
ghost use Rattle.core_places.specs.Arrays.{mailboxes_in};
ghost use Rattle.core_places.specs.Beside.{controllers_beside, errors_beside, owners_beside};
ghost use Rattle.core_answers.specs.Answer.{verdict_reason};
ghost use Rattle.core_answers.specs.Reply.{write_answer};
ghost use Rattle.core_answers.specs.Performed.{Noted};
ghost use Rattle.core_services.specs.Room.{Room};
ghost use Rattle.core_lent.specs.Seen.{seen};
ghost use Rattle.can_state.specs.View.{view_settings, state_of};
ghost use Rattle.can_state.specs.Beside.{settings_of_one};
ghost use Rattle.can_transmission.specs.Lent.{WriteRoom};

use can_state::settings::Settings;
use can_state::settings_slices::SettingsOfOne;
use core_answers::reported::Reported;
use core_answers::verdict::Verdict;
use core_places::lent_mailboxes::LentMailboxes;

pub fn write_lent(
    gate: Verdict,
    initialised: bool,
    object_count: usize,
    modes: &[u8],
    requests: &[u8],
    marks: &[bool],
    controllers: &[u8],
    receivings: &[bool],
    pools: &[u8],
    pendings: &mut [bool],
    dones: &mut [bool],
    fulls: &mut [bool],
    settings: Settings,
    paddings: &[u8],
    ram: &mut [u8],
    sheet: &mut [u32],
    object: u32,
    handle: u16,
    identifier: u32,
    sdu: &[u8],
) -> Reported<u32>
    requires alike { (length dones.old ≡ length pendings.old) × (length fulls.old ≡ length pendings.old) × (length pendings.old ≡ chip.objects) }
    requires room { Room (verdict_reason gate) sheet.old × (verdict_reason gate ≡ 0 → WriteRoom object_count ram.old) }
    ensures reason { verdict_reason result.reply ≡ (written chip can_format (verdict_reason gate) (state_of (seen initialised 0 object_count (controllers_beside modes.now requests.now marks.now) (errors_beside [] [] []) (owners_beside controllers.now receivings.now pools.now) (mailboxes_in pendings.old dones.old fulls.old)) (settings_of_one object (view_settings settings) paddings.now)) ram.old object handle (record { identifier = identifier; sdu = sdu.now })).reason }
    ensures answer { write_answer result.reply ≡ (written chip can_format (verdict_reason gate) (state_of (seen initialised 0 object_count (controllers_beside modes.now requests.now marks.now) (errors_beside [] [] []) (owners_beside controllers.now receivings.now pools.now) (mailboxes_in pendings.old dones.old fulls.old)) (settings_of_one object (view_settings settings) paddings.now)) ram.old object handle (record { identifier = identifier; sdu = sdu.now })).answer }
    ensures mailboxes { mailboxes_in pendings.new dones.new fulls.new ≡ (written chip can_format (verdict_reason gate) (state_of (seen initialised 0 object_count (controllers_beside modes.now requests.now marks.now) (errors_beside [] [] []) (owners_beside controllers.now receivings.now pools.now) (mailboxes_in pendings.old dones.old fulls.old)) (settings_of_one object (view_settings settings) paddings.now)) ram.old object handle (record { identifier = identifier; sdu = sdu.now })).state.core.mailboxes }
    ensures ram { ram.new ≡ (written chip can_format (verdict_reason gate) (state_of (seen initialised 0 object_count (controllers_beside modes.now requests.now marks.now) (errors_beside [] [] []) (owners_beside controllers.now receivings.now pools.now) (mailboxes_in pendings.old dones.old fulls.old)) (settings_of_one object (view_settings settings) paddings.now)) ram.old object handle (record { identifier = identifier; sdu = sdu.now })).ram }
    ensures told { Noted (written chip can_format (verdict_reason gate) (state_of (seen initialised 0 object_count (controllers_beside modes.now requests.now marks.now) (errors_beside [] [] []) (owners_beside controllers.now receivings.now pools.now) (mailboxes_in pendings.old dones.old fulls.old)) (settings_of_one object (view_settings settings) paddings.now)) ram.old object handle (record { identifier = identifier; sdu = sdu.now })).notifications sheet.old sheet.new result.notifications }
{
    let mut core = LentMailboxes {
        initialised,
        controller_count: 0,
        object_count,
        modes,
        requests,
        marks,
        recoverings: &[],
        tx_errors: &[],
        rx_errors: &[],
        controllers,
        receivings,
        pools,
        pendings,
        dones,
        fulls,
    };
    let settings = SettingsOfOne {
        object: object as usize,
        settings,
        paddings,
    };
    can_transmission::lent::write_lent(
        gate, &mut core, &settings, ram, sheet, object, handle, identifier, sdu,
    )
}
