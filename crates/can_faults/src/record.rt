// The rules of one object's record.
ghost use Rattle.std.specs.Prelude.{◌≡◌, ◌+◌, ◌*◌, ◌≤◌, ◌<◌, length};
ghost use Rattle.rules.specs.Configuration.{header_size, object_record};
ghost use Rattle.rules.specs.Can.{can_format};
ghost use Rattle.rules.specs.Chip as rules;
ghost use Rattle.core_places.specs.View.{view_owner};
ghost use Rattle.can_state.specs.View.{view_settings};
ghost use Rattle.can_faults.specs.Fault.{first_broken, sending_rules, receiving_rules, rules_of, record_rule};

use crate::fault::RecordRule;
use can_chip::OBJECTS;
use can_config::record::{Record, read_record};
use can_frame::identifier::{EXTENDED_ONLY, is_extended};
use can_frame::length::{LONGEST_CLASSIC, LONGEST_FD};
use can_frame::settings::{CODE_UNUSED, MASK_UNUSED, within_mask};
use can_state::settings::Settings;
use core_places::owner::owner_valid;

// The first rule of a sending object that is broken.
#[tactic(auto, unfolding(crate::specs::Fault::first_broken, crate::specs::Fault::sending_rules))]
fn sending_rule(pool: u8, s: Settings) -> Result<(), RecordRule>
    ensures { result ≡ first_broken (sending_rules pool (view_settings s)) }
{
    if s.code != 0 {
        return Err(RecordRule::SendingCode);
    }
    if s.mask != 0 {
        return Err(RecordRule::SendingMask);
    }
    if OBJECTS <= pool as usize {
        return Err(RecordRule::Pool);
    }
    Ok(())
}

// The first rule of a receiving object that is broken.
#[tactic(auto, unfolding(crate::specs::Fault::first_broken, crate::specs::Fault::receiving_rules))]
fn receiving_rule(s: Settings) -> Result<(), RecordRule>
    ensures { result ≡ first_broken (receiving_rules (view_settings s)) }
{
    if s.padding != 0 {
        return Err(RecordRule::ReceivingPadding);
    }
    if s.code & CODE_UNUSED != 0 {
        return Err(RecordRule::CodeBits);
    }
    if s.mask & MASK_UNUSED != 0 {
        return Err(RecordRule::MaskBits);
    }
    let extended = is_extended(s.code);
    if !(extended | (s.code & EXTENDED_ONLY == 0)) {
        return Err(RecordRule::StandardCode);
    }
    if !(extended | (s.mask & EXTENDED_ONLY == 0)) {
        return Err(RecordRule::StandardMask);
    }
    if !within_mask(s.code, s.mask) {
        return Err(RecordRule::StrayBit);
    }
    Ok(())
}

// The first rule that is broken by a record that says this.
#[tactic(auto, unfolding(crate::specs::Fault::first_broken, crate::specs::Fault::rules_of))]
fn rule_of(controller_count: usize, said: Record) -> Result<(), RecordRule>
    ensures { result
        ≡ first_broken (rules_of controller_count (view_owner said.owner) said.kind (view_settings said.settings)) }
{
    if !owner_valid(controller_count, said.owner) {
        return Err(RecordRule::Controller);
    }
    if 1 < said.kind {
        return Err(RecordRule::Kind);
    }
    let payload = said.settings.payload as u32;
    if !((payload == LONGEST_CLASSIC) | (payload == LONGEST_FD)) {
        return Err(RecordRule::Payload);
    }
    if said.owner.receiving {
        receiving_rule(said.settings)
    } else {
        sending_rule(said.owner.pool, said.settings)
    }
}

// The first rule that is broken by the record of object h, which the bytes hold whole.
pub fn record_rule(
    bytes: &[u8],
    version: u32,
    controller_count: usize,
    h: usize,
) -> Result<(), RecordRule>
    requires { (header_size + can_format.record_size * h + can_format.record_size ≤ length bytes.now) × (h < 256) }
    ensures { result ≡ record_rule version controller_count h (object_record rules.chip can_format bytes.now h) }
{
    rule_of(controller_count, read_record(bytes, version, h))
}
