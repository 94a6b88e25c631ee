//! Why each change is refused, by the first test of its own table that holds, else what it finds.
ghost use Rattle.std.specs.Prelude.{◌≡◌, [], ◌∷◌, ◌==◌, ◌&&◌, true, Some, None, IfErr, IfOk, IfSome, OnOk, is_none};
ghost use Rattle.std.specs.Option.{option_map};
ghost use Rattle.lq_value.specs.declared.refusal.Refusal.TheVariants.{NoNode, NotFolder, Reserved};
ghost use Rattle.lq_value.specs.Refusal.{first_refusal};
ghost use Rattle.lq_volume.specs.declared.change.Change.TheVariants.{Move};
ghost use Rattle.lq_volume_entries.specs.Attributes.{is_reserved};
ghost use Rattle.lq_volume_entries.specs.Kind.{is_folder};
ghost use Rattle.lq_volume.specs.State.{root, record_at, kind_at, is_folder_at, has_entries, reaches};
ghost use Rattle.lq_volume.specs.Change.{create_refusals, move_refusals, remove_refusals, set_refusals, unset_refusals, write_refusals, other_at};
ghost use Rattle.lq_volume.specs.Lookup.{children_refusals};
ghost use Rattle.lq_volume.specs.Plan.{IsLookedUp};

use crate::planned::LookedUp;
use crate::volume::{ROOT, Volume};
use lq_value::{AttrName, Kind, Name, Refusal};
use lq_volume_entries::{StoredRecord, records_are_kept};

/// The most bytes of a file: the size is shown as an `i64`.
pub const MAX_SIZE: u64 = 9_223_372_036_854_775_807;

#[inline(always)]
pub fn check_create(
    volume: &Volume,
    dir: u64,
    name: &Name,
    kind: Kind,
    size: u64,
) -> Result<(), Refusal>
    ensures ok { OnOk result
        (first_refusal (create_refusals volume.now dir name.now kind size) ≡ None) }
    ensures err { IfErr result (λ e.
        first_refusal (create_refusals volume.now dir name.now kind size) ≡ Some e) }
{
    check_folder(volume, dir)?;
    if volume.is_taken(dir, name) {
        return Err(Refusal::Exists);
    }
    if kind == Kind::Folder && size != 0 {
        return Err(Refusal::IsFolder);
    }
    if size > MAX_SIZE {
        return Err(Refusal::TooLong);
    }
    Ok(())
}

#[inline(always)]
pub fn check_remove(volume: &Volume, node: u64) -> Result<&StoredRecord, Refusal>
    ensures ok { OnOk result (first_refusal (remove_refusals volume.now node) ≡ None) }
    ensures err { IfErr result (λ e. first_refusal (remove_refusals volume.now node) ≡ Some e) }
    ensures record { IfOk result (λ r. record_at volume.now node ≡ Some r.now) }
{
    let record = entry_at(volume, node)?;
    if is_filled(volume, node, record) {
        return Err(Refusal::NotEmpty);
    }
    Ok(record)
}

#[inline(always)]
pub fn check_move<'a>(
    volume: &'a Volume,
    moved: u64,
    dir: u64,
    name: &Name,
    clobber: bool,
) -> Result<LookedUp<'a>, Refusal>
    ensures ok { OnOk result
        (first_refusal (move_refusals volume.now moved dir name.now clobber) ≡ None) }
    ensures err { IfErr result (λ e.
        first_refusal (move_refusals volume.now moved dir name.now clobber) ≡ Some e) }
    ensures found { IfOk result (IsLookedUp volume.now (Move moved dir name.now clobber)) }
{
    let record = entry_at(volume, moved)?;
    check_folder(volume, dir)?;
    if would_loop(volume, moved, record, dir) {
        return Err(Refusal::WouldLoop);
    }
    let other = other_in(volume, moved, dir, name);
    if let Some((node, there)) = other {
        if !clobber {
            return Err(Refusal::Exists);
        }
        if there.is_folder() != record.is_folder() {
            return Err(Refusal::KindClash);
        }
        if is_filled(volume, node, there) {
            return Err(Refusal::NotEmpty);
        }
    }
    Ok(LookedUp {
        stored: Some(record),
        other,
    })
}

#[inline(always)]
pub fn check_write(volume: &Volume, file: u64, size: u64) -> Result<&StoredRecord, Refusal>
    ensures ok { OnOk result (first_refusal (write_refusals volume.now file size) ≡ None) }
    ensures err { IfErr result (λ e. first_refusal (write_refusals volume.now file size) ≡ Some e) }
    ensures record { IfOk result (λ r. record_at volume.now file ≡ Some r.now) }
{
    let record = entry_at(volume, file)?;
    if record.is_folder() {
        return Err(Refusal::IsFolder);
    }
    if MAX_SIZE < size {
        return Err(Refusal::TooLong);
    }
    Ok(record)
}

#[inline(always)]
pub fn check_set_attr<'a>(
    volume: &'a Volume,
    entry: u64,
    attr: &AttrName,
) -> Result<&'a StoredRecord, Refusal>
    ensures ok { OnOk result (first_refusal (set_refusals volume.now entry attr.now) ≡ None) }
    ensures err { IfErr result (λ e.
        first_refusal (set_refusals volume.now entry attr.now) ≡ Some e) }
    ensures record { IfOk result (λ r. record_at volume.now entry ≡ Some r.now) }
{
    let record = entry_at(volume, entry)?;
    if is_reserved(attr) {
        return Err(Refusal::Reserved);
    }
    Ok(record)
}

#[inline(always)]
pub fn check_remove_attr<'a>(
    volume: &'a Volume,
    owner: u64,
    attr: &AttrName,
) -> Result<&'a StoredRecord, Refusal>
    ensures ok { OnOk result (first_refusal (unset_refusals volume.now owner attr.now) ≡ None) }
    ensures err { IfErr result (λ e.
        first_refusal (unset_refusals volume.now owner attr.now) ≡ Some e) }
    ensures record { IfOk result (λ r. record_at volume.now owner ≡ Some r.now) }
{
    let record = check_set_attr(volume, owner, attr)?;
    if record.attrs().get(attr).is_none() {
        return Err(Refusal::NoAttr);
    }
    Ok(record)
}

// The record of a node that is there and is not the root.
fn entry_at(volume: &Volume, node: u64) -> Result<&StoredRecord, Refusal>
    ensures ok { OnOk result (first_refusal
        ((is_none (kind_at volume.now node), NoNode) ∷ (node == root, Reserved) ∷ []) ≡ None) }
    ensures err { IfErr result (λ e. first_refusal
        ((is_none (kind_at volume.now node), NoNode) ∷ (node == root, Reserved) ∷ []) ≡ Some e) }
    ensures record { IfOk result (λ r. record_at volume.now node ≡ Some r.now) }
    ensures kind { IfOk result (λ r. kind_at volume.now node ≡ Some r.now.kind) }
{
    if node == ROOT {
        return Err(Refusal::Reserved);
    }
    match volume.entries.get(node) {
        None => Err(Refusal::NoNode),
        Some(record) => Ok(record),
    }
}

// Whether a node is a folder with an entry.
fn is_filled(volume: &Volume, node: u64, stored: &StoredRecord) -> bool
    ensures { result ≡ (is_folder stored.now.kind && has_entries volume.now node) }
{
    stored.is_folder() && volume.entries.has_any(node)
}

// Whether an entry would move into itself: a file contains nothing, so only a folder needs a walk.
fn would_loop(volume: &Volume, moved: u64, stored: &StoredRecord, dir: u64) -> bool
    requires kind { kind_at volume.now moved ≡ Some stored.now.kind }
    requires dir { is_folder_at volume.now dir ≡ true }
    ensures { result ≡ reaches volume.now dir moved }
{
    // For its clause `volume`.
    let _ = volume.changes();
    stored.is_folder() && volume.entries.reaches(dir, moved)
}

// The other node at the place, and its record.
fn other_in<'a>(
    volume: &'a Volume,
    moved: u64,
    dir: u64,
    name: &Name,
) -> Option<(u64, &'a StoredRecord)>
    ensures node { option_map (λ e. e.0) result ≡ other_at volume.now moved dir name.now }
    ensures record { IfSome result (λ e. record_at volume.now e.0 ≡ Some e.1.now) }
    ensures kind { IfSome result (λ e. kind_at volume.now e.0 ≡ Some e.1.now.kind) }
{
    records_are_kept();
    match volume.other_at(moved, dir, name) {
        None => None,
        Some(other) => match volume.entries.get(other) {
            None => None,
            Some(record) => Some((other, record)),
        },
    }
}

/// Refuses a node that isn't there or isn't a folder.
pub fn check_folder(volume: &Volume, dir: u64) -> Result<(), Refusal>
    ensures ok { OnOk result (first_refusal (children_refusals volume.now dir) ≡ None) }
    ensures err { IfErr result (λ e.
        first_refusal (children_refusals volume.now dir) ≡ Some e) }
    ensures folder { OnOk result (is_folder_at volume.now dir ≡ true) }
{
    match volume.kind(dir) {
        None => Err(Refusal::NoNode),
        Some(Kind::File) => Err(Refusal::NotFolder),
        Some(Kind::Folder) => Ok(()),
    }
}

/// Whether every entry shows a property of its own under this name.
pub fn is_reserved(attr: &AttrName) -> bool
    ensures { result ≡ is_reserved attr.now }
{
    let attr = attr.as_str();
    attr == "name" || attr == "size" || attr == "last_modified"
}
