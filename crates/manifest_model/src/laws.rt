//! Laws of the manifest. They are proved and never called.
ghost use Rattle.manifest_model.specs.Installs.{BeginsClosed, BeginsOpen, ClosesTheGate, InstalledIsInFormat2, InstalledIsInUse, OpensTheGate, WritesTheBody};
ghost use Rattle.manifest_model.specs.Laws.{RowFits, VersionIsReadAgain, VersionWasWrittenSo};
ghost use Rattle.manifest_model.specs.NewVersion.{NewVersionIsOne};
ghost use Rattle.manifest_model.specs.Rows.{RowsKeepTheRules, TablesFitDevice};
ghost use Rattle.manifest_model.specs.SlotLaws.{CurrentIsKept, GreaterEpochIsInUse, HeldHasItsFormat, HeldIsRead, InUseIsKept, NoStoreHasNoVersion, OlderIsKept, OneVersion, ReadIsHeld, SlotIsKept, VersionHasNoDamage, VersionIsFound, VersionIsKept};

use byte_fields::Row;

/// A version is read from the bytes of its body as it was written, whatever follows them, and these break no rule; and
/// bytes that break none begin with those of the version that is read from them.
pub fn versions_have_one_spelling()
    ensures again { VersionIsReadAgain }
    ensures written { VersionWasWrittenSo }
{}

/// The rows of a version break no rule exactly where each is one of a table, levels do not fall and the tables lie apart on
/// the device; so each of them fits a device of any size. The version of a new store keeps the rules.
pub fn rows_keep_the_rules()
    ensures rules { RowsKeepTheRules }
    ensures fit { TablesFitDevice }
    ensures new { NewVersionIsOne }
{}

/// The numbers of a row that code holds fit their fields.
pub fn a_row_fits(_row: Row)
    ensures { RowFits _row }
{}

/// What a slot holds is what is read from it, in the format that its bytes name. An image has one version at most: of two
/// that are held that of the greater epoch. It has one exactly where a slot is open, no open slot breaks a rule, and two open
/// ones differ in their epochs.
pub fn an_image_has_one_version()
    ensures read { HeldIsRead }
    ensures format { HeldHasItsFormat }
    ensures held { ReadIsHeld }
    ensures one { OneVersion }
    ensures greater { GreaterEpochIsInUse }
    ensures no_store { NoStoreHasNoVersion }
    ensures no_damage { VersionHasNoDamage }
    ensures found { VersionIsFound }
{}

/// What is written apart from a slot, done or cut short, changes nothing of what it holds; in the other slot, nothing of
/// what the one in use holds; apart from both, nothing of the version and of where it stands.
pub fn slots_are_kept()
    ensures slot { SlotIsKept }
    ensures older { OlderIsKept }
    ensures in_use { InUseIsKept }
    ensures current { CurrentIsKept }
    ensures version { VersionIsKept }
{}

/// A version is installed by three writes into the slot that is not in use: its gate is closed, its body is written, and
/// its gate is opened. Cut short, the first two leave the old version, and the last leaves the old one or the new one. The
/// new one is in format 2, whatever the format of the one before.
pub fn a_version_is_installed()
    ensures begins_open { BeginsOpen }
    ensures begins_closed { BeginsClosed }
    ensures closes { ClosesTheGate }
    ensures writes { WritesTheBody }
    ensures opens { OpensTheGate }
    ensures in_use { InstalledIsInUse }
    ensures format { InstalledIsInFormat2 }
{}
