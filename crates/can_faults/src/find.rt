// Why a configuration is bad.
ghost use Rattle.std.specs.Prelude.{◌≡◌, is_ok};
ghost use Rattle.rules.specs.Configuration.{accepted_bytes};
ghost use Rattle.rules.specs.Can.{can_format};
ghost use Rattle.rules.specs.Chip as rules;
ghost use Rattle.can_faults.specs.Fault.{fault_of};

use crate::fault::Fault;
use crate::outline::outline_rule;
use crate::pools::pools_fault;
use crate::records::records_fault;
use can_config::header::{CONTROLLERS_AT, OBJECTS_AT, version_of};
use can_config::records::read_records;
use core_places::at::number_at;

// The first rule that bytes of any length break; none exactly where Init accepts them. No record is read before it is known that the bytes
// hold exactly the records.
#[tactic(auto, using(crate::proofs::Whole::whole))]
pub fn fault(bytes: &[u8]) -> Result<(), Fault>
    ensures first { result ≡ fault_of bytes.now }
    ensures exactly { is_ok result ≡ accepted_bytes rules.chip can_format bytes.now }
{
    outline_rule(bytes).map_err(Fault::Outline)?;
    let version = version_of(bytes);
    let controller_count = number_at(bytes, CONTROLLERS_AT) as usize;
    let object_count = number_at(bytes, OBJECTS_AT) as usize;
    records_fault(bytes, version, controller_count, object_count)?;
    let setup = read_records(bytes, version, controller_count, object_count).unwrap();
    pools_fault(setup)
}
