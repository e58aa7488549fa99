// The rules of all records.
ghost use Rattle.std.specs.Prelude.{◌≡◌, ◌+◌, ◌*◌, ◌≤◌, length};
ghost use Rattle.rules.specs.Configuration.{header_size};
ghost use Rattle.rules.specs.Can.{can_format};
ghost use Rattle.rules.specs.Chip as rules;
ghost use Rattle.can_faults.specs.Fault.{records_fault};

use crate::fault::Fault;
use crate::record::record_rule;

// The first record that breaks a rule, and which rule it breaks first.
#[tactic(auto, using(crate::proofs::Laws::found, crate::proofs::Laws::none_more), unfolding(crate::specs::Fault::first_fault))]
pub fn records_fault(
    bytes: &[u8],
    version: u32,
    controller_count: usize,
    object_count: usize,
) -> Result<(), Fault>
    requires { (object_count ≤ (rules.chip).objects) × (header_size + can_format.record_size * object_count ≤ length bytes.now) }
    ensures { result ≡ records_fault bytes.now version controller_count object_count }
{
    for object in 0..object_count {
        record_rule(bytes, version, controller_count, object).map_err(|rule| Fault::Record {
            rule,
            object,
        })?;
    }
    Ok(())
}
