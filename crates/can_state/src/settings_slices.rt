// Settings that stand in slices of the caller.
ghost use Rattle.std.specs.Prelude.{◌^◌};
ghost use Rattle.can_state.specs.View.{view_settings};
ghost use Rattle.can_state.specs.Beside.{settings_beside, settings_of_one};

use crate::settings::Settings;
use crate::settings_list::SettingsList;
use core_places::at::{count_at, number_at};

// One slice for each field. They may be of any lengths, `&[]` for a field that a call does not read.
#[derive(Clone, Copy, Drop)]
pub struct SettingsSlices<'a> {
    pub payloads: &'a [u8],
    pub paddings: &'a [u8],
    pub codes: &'a [u32],
    pub masks: &'a [u32],
}

impl<'a> SettingsList for SettingsSlices<'a> {
    ghost places = { λ l. settings_beside l.payloads.now l.paddings.now l.codes.now l.masks.now };

    ghost readable = { λ _. 2 ^ 64 };

    #[tactic(auto, using(crate::proofs::Beside::settings_beside_at))]
    fn settings(&self, h: usize) -> Settings {
        Settings {
            payload: number_at(self.payloads, h),
            padding: number_at(self.paddings, h),
            code: count_at(self.codes, h),
            mask: count_at(self.masks, h),
        }
    }
}

// The settings of one object, and of the others the padding values alone.
#[derive(Clone, Copy, Drop)]
pub struct SettingsOfOne<'a> {
    pub object: usize,
    pub settings: Settings,
    pub paddings: &'a [u8],
}

impl<'a> SettingsList for SettingsOfOne<'a> {
    ghost places = { λ l. settings_of_one l.object (view_settings l.settings) l.paddings.now };

    ghost readable = { λ _. 2 ^ 64 };

    #[tactic(auto, using(crate::proofs::Beside::settings_of_one_at))]
    fn settings(&self, h: usize) -> Settings {
        if h == self.object {
            self.settings
        } else {
            Settings {
                payload: 0,
                padding: number_at(self.paddings, h),
                code: 0,
                mask: 0,
            }
        }
    }
}
