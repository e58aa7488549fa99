// One object's record: controller, kind, payload, padding value, filter code (4), filter mask (4).
ghost use Rattle.std.specs.Prelude.{◌≡◌, not, cond, ◌&&◌, [], ◌∷◌, eqb};
ghost use Rattle.rules.specs.Bytes.{big_endian};
ghost use Rattle.rules.specs.Can.{record_of};
ghost use Rattle.core_places.specs.View.{view_owner};
ghost use Rattle.can_state.specs.View.{view_settings};

use can_config::record::RECORD_SIZE;
use can_state::settings::Settings;
use core_places::owner::Owner;

// The bytes of the code: in version 2 that of a sending object is its pool, and the other bytes are zero.
fn code_bytes(version: u32, owner: Owner, code: u32) -> [u8; 4]
    ensures { result ≡ cond (eqb version 2 && not owner.receiving) (0 ∷ 0 ∷ 0 ∷ owner.pool ∷ []) (big_endian 4 code) }
{
    if (version == 2) & !owner.receiving {
        [0, 0, 0, owner.pool]
    } else {
        code.to_be_bytes()
    }
}

// The record of an object in a version.
pub fn record_bytes(version: u32, owner: Owner, settings: Settings) -> [u8; RECORD_SIZE]
    ensures { result ≡ record_of version (view_owner owner) (view_settings settings) }
{
    let code = code_bytes(version, owner, settings.code);
    let mask = settings.mask.to_be_bytes();
    [
        owner.controller,
        owner.receiving as u8,
        settings.payload,
        settings.padding,
        code[0],
        code[1],
        code[2],
        code[3],
        mask[0],
        mask[1],
        mask[2],
        mask[3],
    ]
}
