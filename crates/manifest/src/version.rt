//! What a store keeps of its manifest.
ghost use Rattle.std.specs.Prelude.{◌≡◌, ◌≤◌, ◌<◌, ◌-◌, true};
ghost use Rattle.key_base.specs.Limits.{last_epoch};
ghost use Rattle.manifest.specs.Manifest.{raised};

use byte_fields::Row;
use filter_api::Settings;
use std::marker::Model;

/// What the manifest of a store says, and in which slot.
#[derive(Drop)]
pub struct Version {
    /// The settings of new tables. Each row has those of its own table.
    pub settings: Settings,
    /// The pages of the device.
    pub pages: u32,
    /// How many versions there were, this one included.
    pub epoch: u64,
    /// The log area in use, 0 or 1.
    pub log_area: u8,
    /// The slot in use: 0 is slot A, 1 is slot B.
    pub slot: u8,
    /// Whether the gate of the other slot reads 1.
    pub other_open: bool,
    /// The tables: by level, in level 0 the newest first, in a deeper level by rising keys.
    pub rows: Vec<Row>,
}

impl Model for Version {
    ghost use Rattle.manifest.specs.Manifest.{Manifest};
    ghost use Rattle.manifest_model.specs.Version.{log_page_of};

    ghost Value = { Manifest };

    ghost view = { λ v. record {
      version = record {
        hash_bits = v.settings.hash_bits;
        real_bits = v.settings.real_bits;
        ratio = v.settings.ratio;
        pages = v.pages;
        epoch = v.epoch;
        log_page = log_page_of v.log_area;
        rows = v.rows.items;
      };
      slot = v.slot;
      other_open = v.other_open;
    } };
}

impl Version {
    /// What it is once it was installed: its epoch is raised, it stands in the other slot, and both gates read 1.
    #[tactic(auto, unfolding(key_base::specs::Limits::last_epoch))]
    pub fn installed(self) -> Version
        requires slot { self.slot ≤ 1 }
        requires epoch { self.version.epoch < last_epoch }
        ensures { result ≡ record { version = raised self.version; slot = 1 - self.slot; other_open = true } }
    {
        Version {
            epoch: self.epoch + 1,
            slot: 1 - self.slot,
            other_open: true,
            ..self
        }
    }
}
