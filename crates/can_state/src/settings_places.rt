// The places of what is configured of the objects' frames.
ghost use Rattle.std.specs.Prelude.{◌≡◌, ◌<◌, length, replicate, set};
ghost use Rattle.rules.specs.Configuration.{settings_at};
ghost use Rattle.rules.specs.Can as can;
ghost use Rattle.can_state.specs.View.{view_settings};

use crate::settings::{Settings, unused_settings};
use std::marker::Model;

// The settings of N objects. Clauses see the list of them.
#[derive(Clone, Copy)]
pub struct SettingsPlaces<const N: usize> {
    payloads: [u8; N],
    paddings: [u8; N],
    codes: [u32; N],
    masks: [u32; N],
}

impl<const N: usize> Model for SettingsPlaces<N> {
    ghost use Rattle.std.specs.Prelude.{List, map};
    ghost use Rattle.rules.specs.Can.{Settings};
    ghost use Rattle.can_state.specs.Columns.{SettingsAlike, settings_in, payload_back, padding_back, code_back, mask_back};

    ghost Value = { List Settings };

    ghost view = { λ a. settings_in a.payloads a.paddings a.codes a.masks };

    ghost invariant = { λ a. SettingsAlike a.payloads a.paddings a.codes a.masks };

    ghost inverse = { λ ss. record { payloads = map (λ s. s.payload) ss; paddings = map (λ s. s.padding) ss; codes = map (λ s. s.code) ss; masks = map (λ s. s.mask) ss } };

    ghost inverse_ok = { λ a alike i. record {
      payloads = payload_back a.payloads a.paddings a.codes a.masks alike i;
      paddings = padding_back a.payloads a.paddings a.codes a.masks alike i;
      codes = code_back a.payloads a.paddings a.codes a.masks alike i;
      masks = mask_back a.payloads a.paddings a.codes a.masks alike i;
    } };
}

impl<const N: usize> SettingsPlaces<N> {
    // All at rest.
    #[tactic(auto, using(core_places::specs::Zip::zip_4_replicate))]
    pub fn unused() -> Self
        ensures { result ≡ replicate N can.unused_settings }
    {
        SettingsPlaces {
            payloads: [0; N],
            paddings: [0; N],
            codes: [0; N],
            masks: [0; N],
        }
    }

    // How many there are.
    #[tactic(auto, using(crate::specs::Columns::settings_length))]
    pub fn len(&self) -> usize
        ensures number { result ≡ N }
        ensures places { length self.now ≡ N }
    {
        let payloads = &self.payloads;
        payloads.len()
    }

    // The settings of object h, which there is.
    #[tactic(auto, using(crate::specs::Columns::settings_seen))]
    pub fn read(&self, h: usize) -> Settings
        requires { h < N }
        ensures { view_settings result ≡ settings_at can.can_format self.now h }
    {
        Settings {
            payload: self.payloads[h],
            padding: self.paddings[h],
            code: self.codes[h],
            mask: self.masks[h],
        }
    }

    // The settings of object h; past the last one, those of an unused object.
    pub fn at(&self, h: usize) -> Settings
        ensures { view_settings result ≡ settings_at can.can_format self.now h }
    {
        if h < self.len() {
            self.read(h)
        } else {
            unused_settings()
        }
    }

    // The settings of object h become s.
    #[tactic(auto, using(core_places::specs::Zip::zip_4_set))]
    pub fn set(&mut self, h: usize, s: Settings)
        requires { h < N }
        ensures { self.new ≡ set self.old h (view_settings s) }
    {
        self.payloads[h] = s.payload;
        self.paddings[h] = s.padding;
        self.codes[h] = s.code;
        self.masks[h] = s.mask;
    }
}
