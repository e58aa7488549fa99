// Which bit of a filter code is stray.
ghost use Rattle.std.specs.Prelude.{◌≡◌, ◌<◌};
ghost use Rattle.rules.specs.Can.{stray_at};
ghost use Rattle.can_faults.specs.Stray.{stray_bit};

// How many bits an extended identifier has.
const IDENTIFIER_BITS: u32 = 29;

// Bit k is a one in the code and a zero in the mask.
fn stray_at(code: u32, mask: u32, k: u32) -> bool
    requires { k < 32 }
    ensures { result ≡ stray_at code mask k }
{
    ((code >> k) % 2 == 1) & !((mask >> k) % 2 == 1)
}

// The first stray one of bits 28 to 0.
#[tactic(auto, using(crate::proofs::Bits::highest_none, crate::proofs::Bits::highest_step))]
pub fn stray_bit(code: u32, mask: u32) -> Option<u32>
    ensures { result ≡ stray_bit code mask }
{
    for k in (0..IDENTIFIER_BITS).rev() {
        if stray_at(code, mask, k) {
            return Some(k);
        }
    }
    None
}
