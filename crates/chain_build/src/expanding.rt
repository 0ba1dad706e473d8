//! The plain layers that a name stands for.
//! Source: Khronos Vulkan-Loader, LoaderLayerInterface.md, meta-layers.
ghost use Rattle.std.specs.Prelude.{◌≡◌, ℕ, ◌-◌, suc, [], ◌∷◌, IfOk, List, map, length, option_map, string_bytes, vec_len};
ghost use Rattle.chain_build.specs.Expanding.{ListedLayer, expansion, expand_to, joined};
ghost use Rattle.chain_build.specs.Holding.{listed_layer, texts_of, names_content, IsRow};
ghost use Rattle.layer_search.specs.Contents.{found_layer};
ghost use Rattle.layer_search.specs.Order.{firsts};

use crate::by_name::ByName;
use crate::listed::{Listed, MOST_LEVELS};
use indexmap::IndexSet;
use layer_search::FoundLayer;
use std::alloc::{AllocError, Global};

// Names, each once.
fn first_names<'a>(alloc: Global, names: &[&'a str]) -> Result<Vec<&'a str>, AllocError>
    ensures { IfOk result (λ kept. texts_of kept.items ≡ firsts (λ name. name) (texts_of names.now)) }
{
    let mut seen = IndexSet::new(alloc);
    let mut kept = Vec::new(alloc);
    for name in names {
        if seen.insert(*name)? {
            kept.push(*name)?;
        }
    }
    Ok(kept)
}

// What a name stands for, by what each layer stands for.
fn names_at<'a, 'b>(
    known: &ByName<'a>,
    row: &'b [Option<Vec<&'a str>>],
    name: &str,
) -> Option<&'b [&'a str]>
    requires { length row.now ≡ vec_len known.now.layers }
    ensures { (levels : ℕ) → IsRow levels (map listed_layer known.now.layers.items) row.now
        → option_map (λ names. texts_of names.now) result ≡ expand_to (map listed_layer known.now.layers.items) levels name.now }
{
    match known.place_of(name) {
        Some(place) => match &row[place] {
            Some(names) => Some(names.as_slice()),
            None => None,
        },
        None => None,
    }
}

// What components stand for together, where all of them are there.
fn join<'a>(
    alloc: Global,
    known: &ByName<'a>,
    row: &[Option<Vec<&'a str>>],
    components: &[String],
) -> Result<Option<Vec<&'a str>>, AllocError>
    requires { length row.now ≡ vec_len known.now.layers }
    ensures { IfOk result (λ names. (levels : ℕ) → IsRow levels (map listed_layer known.now.layers.items) row.now
        → names_content names ≡ joined (map (expand_to (map listed_layer known.now.layers.items) levels) (map string_bytes components.now))) }
{
    let mut names = Vec::new(alloc);
    for component in components {
        match names_at(known, row, component.as_str()) {
            Some(more) => names.extend_from_slice(more)?,
            None => return Ok(None),
        }
    }
    Ok(Some(names))
}

// A name alone.
fn alone(alloc: Global, name: &str) -> Result<Vec<&str>, AllocError>
    ensures { IfOk result (λ names. texts_of names.items ≡ name.now ∷ []) }
{
    let mut names = Vec::new(alloc);
    names.push(name)?;
    Ok(names)
}

/// What a layer stands for, by what each layer stands for with a level less.
pub(crate) fn expand_layer<'a>(
    alloc: Global,
    known: &ByName<'a>,
    row: &[Option<Vec<&'a str>>],
    layer: &'a FoundLayer,
) -> Result<Option<Vec<&'a str>>, AllocError>
    requires { length row.now ≡ vec_len known.now.layers }
    ensures { IfOk result (λ names. (levels : ℕ) → IsRow levels (map listed_layer known.now.layers.items) row.now
        → names_content names ≡ expansion (map listed_layer known.now.layers.items) (suc levels) (found_layer layer.now)) }
{
    if layer.entry.library.is_some() {
        return Ok(Some(alone(alloc, layer.entry.name.as_str())?));
    }
    match join(alloc, known, row, &layer.entry.components)? {
        Some(names) => Ok(Some(first_names(alloc, &names)?)),
        None => Ok(None),
    }
}

// What a plain layer stands for: its own name.
fn plain(alloc: Global, layer: &FoundLayer) -> Result<Option<Vec<&str>>, AllocError>
    ensures { IfOk result (λ names. (layers : List ListedLayer) → names_content names ≡ expansion layers 0 (found_layer layer.now)) }
{
    if layer.entry.library.is_some() {
        Ok(Some(alone(alloc, layer.entry.name.as_str())?))
    } else {
        Ok(None)
    }
}

// What each layer stands for without a level of meta-layers.
fn plain_row<'a>(
    alloc: Global,
    layers: &[Listed<'a>],
) -> Result<Vec<Option<Vec<&'a str>>>, AllocError>
    ensures row { IfOk result (λ row. IsRow 0 (map listed_layer layers.now) row.items) }
    ensures len { IfOk result (λ row. vec_len row ≡ length layers.now) }
{
    let mut row = Vec::new(alloc);
    for listed in layers {
        row.push(plain(alloc, listed.layer)?)?;
    }
    Ok(row)
}

// What each layer stands for with a level more.
fn next_row<'a>(
    alloc: Global,
    known: &ByName<'a>,
    row: &[Option<Vec<&'a str>>],
) -> Result<Vec<Option<Vec<&'a str>>>, AllocError>
    requires { length row.now ≡ vec_len known.now.layers }
    ensures row { IfOk result (λ next. (levels : ℕ) → IsRow levels (map listed_layer known.now.layers.items) row.now
        → IsRow (suc levels) (map listed_layer known.now.layers.items) next.items) }
    ensures len { IfOk result (λ next. vec_len next ≡ vec_len known.now.layers) }
{
    let mut next = Vec::new(alloc);
    for listed in &known.layers {
        next.push(expand_layer(alloc, known, row, listed.layer)?)?;
    }
    Ok(next)
}

/// What each layer stands for with a level less than there may be.
pub(crate) fn last_row<'a>(
    alloc: Global,
    known: &ByName<'a>,
) -> Result<Vec<Option<Vec<&'a str>>>, AllocError>
    ensures row { IfOk result (λ row. IsRow (MOST_LEVELS - 1) (map listed_layer known.now.layers.items) row.items) }
    ensures len { IfOk result (λ row. vec_len row ≡ vec_len known.now.layers) }
{
    let mut row = plain_row(alloc, &known.layers)?;
    for _level in 0..MOST_LEVELS - 1 {
        row = next_row(alloc, known, &row)?;
    }
    Ok(row)
}
