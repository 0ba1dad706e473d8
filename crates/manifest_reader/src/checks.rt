//! What a table's line finds at fault in an object, and the first fault of a table.
//! Source: Khronos Vulkan-Loader, LoaderDriverInterface.md and LoaderLayerInterface.md, the tables of manifest fields; the latter's
//! chapter on the override layer for its name.
ghost use Rattle.std.specs.Prelude.{◌≡◌, is_some, option_map};
ghost use Rattle.std.specs.List.{list_all};
ghost use Rattle.serde_json.specs.Find.{as_object};
ghost use Rattle.serde_json.specs.View.{view};
ghost use Rattle.manifest_reader.specs.Faults as faults;

use crate::entries::LayerKind;
use crate::faults::ManifestFault;
use crate::keys::Key;
use crate::rows::{Form, Kind, Manifest, Row, When};
use crate::texts;
use crate::values::{at, elements, first_member, says};
use serde_json::Value;

/// The name of the layer that may replace others.
const OVERRIDE_NAME: &str = "VK_LAYER_LUNARG_override";

/// Whether an entry is of a device layer, which loaders no longer know.
#[tactic(auto, unfolding(crate::specs::Faults::is_device))]
pub(crate) fn is_device(entry: &Value) -> bool
    ensures { result ≡ faults.is_device (view entry.now) }
{
    says(entry, Key::LayerType, "DEVICE")
}

#[tactic(auto, unfolding(crate::specs::Faults::is_override))]
fn is_override(entry: &Value) -> bool
    ensures { result ≡ faults.is_override (view entry.now) }
{
    says(entry, Key::Name, OVERRIDE_NAME) && at(entry, Key::ComponentLayers).is_some()
}

fn is_implicit(manifest: Manifest) -> bool
    ensures { result ≡ faults.is_implicit manifest }
{
    match manifest {
        Manifest::Layer(LayerKind::Implicit) => true,
        Manifest::Layer(LayerKind::Explicit) | Manifest::Driver => false,
    }
}

/// Whether a condition holds of an object.
#[tactic(auto, unfolding(crate::specs::Faults::holds))]
pub(crate) fn holds(manifest: Manifest, object: &Value, when: When) -> bool
    ensures { result ≡ faults.holds manifest (view object.now) when }
{
    match when {
        When::Always => true,
        When::Never => false,
        When::Without(key) => at(object, key).is_none(),
        When::UnlessDevice => !is_device(object),
        When::Implicit => is_implicit(manifest) && !is_device(object),
        When::Override => is_implicit(manifest) && !is_device(object) && is_override(object),
    }
}

#[tactic(auto, unfolding(crate::specs::Faults::has_form))]
fn has_form(form: Form, text: &str) -> bool
    ensures { result ≡ faults.has_form form text.now }
{
    match form {
        Form::Any => true,
        Form::Plain => texts::is_plain(text),
        Form::Filled => texts::is_filled(text),
        Form::Version => texts::is_version(text),
        Form::Name => texts::is_name(text),
        Form::LayerType => text == "INSTANCE" || text == "GLOBAL" || text == "DEVICE",
        Form::Architecture => text == "32" || text == "64",
    }
}

/// Whether a value is a text of a form.
#[tactic(auto, unfolding(crate::specs::Faults::is_text))]
pub(crate) fn is_text(form: Form, value: &Value) -> bool
    ensures { result ≡ faults.is_text form (view value.now) }
{
    match value.as_str() {
        Some(text) => has_form(form, text),
        None => false,
    }
}

fn are_objects(elements: &[Value]) -> bool
    ensures { result ≡ list_all (λ v. is_some (as_object (view v))) elements.now }
{
    elements.iter().all(|element| element.is_object())
}

#[tactic(auto, using(crate::proofs::Views::all_of_views), unfolding(crate::specs::Faults::is_objects))]
fn is_objects(value: &Value) -> bool
    ensures { result ≡ faults.is_objects (view value.now) }
{
    value.is_array() && are_objects(elements(value))
}

fn are_plain_texts(elements: &[Value]) -> bool
    ensures { result ≡ list_all (λ v. faults.is_text Form.Plain (view v)) elements.now }
{
    elements.iter().all(|element| is_text(Form::Plain, element))
}

#[tactic(auto, using(crate::proofs::Views::all_of_views), unfolding(crate::specs::Faults::is_texts))]
fn is_texts(value: &Value) -> bool
    ensures { result ≡ faults.is_texts (view value.now) }
{
    value.is_array() && are_plain_texts(elements(value))
}

#[tactic(auto, unfolding(crate::specs::Faults::is_variable))]
fn is_variable(value: &Value) -> bool
    ensures { result ≡ faults.is_variable (view value.now) }
{
    match first_member(value) {
        Some((_, text)) => is_text(Form::Plain, text),
        None => false,
    }
}

#[tactic(auto, unfolding(crate::specs::Faults::fits))]
fn fits(kind: Kind, object: &Value, value: &Value) -> bool
    ensures { result ≡ faults.fits kind (view object.now) (view value.now) }
{
    match kind {
        Kind::Boolean => value.is_boolean(),
        Kind::Object => value.is_object(),
        Kind::Objects => is_objects(value),
        Kind::Text(form) => is_text(form, value),
        Kind::Texts => is_texts(value),
        Kind::Components => is_texts(value) && at(object, Key::LibraryPath).is_none(),
        Kind::Variable => is_variable(value),
    }
}

#[tactic(auto, unfolding(crate::specs::Faults::value_fault))]
fn value_fault(
    manifest: Manifest,
    object: &Value,
    row: &Row,
    value: Option<&Value>,
) -> Option<ManifestFault>
    ensures { result ≡ faults.value_fault manifest (view object.now) row.now
        (option_map (λ v. view v.now) value.entry) }
{
    match value {
        None if holds(manifest, object, row.needed) => {
            Some(ManifestFault::Missing { key: row.key })
        }
        Some(value) if !fits(row.kind, object, value) => {
            Some(ManifestFault::WrongKind { key: row.key })
        }
        _ => None,
    }
}

#[tactic(auto, unfolding(crate::specs::Faults::row_fault))]
fn row_fault(manifest: Manifest, object: &Value, row: &Row) -> Option<ManifestFault>
    ensures { result ≡ faults.row_fault manifest (view object.now) row.now }
{
    if !holds(manifest, object, row.read) {
        return None;
    }
    value_fault(manifest, object, row, at(object, row.key))
}

/// The first fault that a table's lines find, in their order.
pub(crate) fn first_fault(manifest: Manifest, object: &Value, rows: &[Row]) -> Option<ManifestFault>
    ensures { result ≡ faults.first_fault manifest (view object.now) rows.now }
{
    for row in rows {
        let fault = row_fault(manifest, object, row);
        if fault.is_some() {
            return fault;
        }
    }
    None
}
