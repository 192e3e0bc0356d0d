// What a JSON value has at a key. The error is the key.
ghost use Rattle.std.specs.Prelude.{◌≡◌, ◌≤◌, IfOk, IfErr, IfSome, length, option_map, Ok, Err, Some, None};
ghost use Rattle.serde_json.specs.View.{view, items_view};
ghost use Rattle.segment_shape.specs.KeyNames.{name_of};
ghost use Rattle.segment_shape.specs.Values.{number_of, number_at, number_where, option_where, number_if_any, lacking, id_of, id_at, items_of, items_at, items_if_any};

use crate::id::{Id, id_text};
use crate::key::Key;
use serde_json::Value;

fn number_of(value: &Value, low: u64, high: u64) -> Option<u64>
    ensures is { result ≡ number_of low high (view value.now) }
    ensures within { IfSome result (λ n. (low ≤ n) × (n ≤ high)) }
{
    let number = value.as_u64()?;
    if low <= number && number <= high {
        Some(number)
    } else {
        None
    }
}

pub(crate) fn number_at(value: &Value, key: Key, low: u64, high: u64) -> Result<u64, Key>
    ensures ok { IfOk result (λ n. number_at (name_of key) low high (view value.now) ≡ Ok n) }
    ensures err { IfErr result (λ k. number_at (name_of key) low high (view value.now) ≡ Err (name_of k)) }
    ensures within { IfOk result (λ n. (low ≤ n) × (n ≤ high)) }
{
    let Some(found) = value.get(key.name()) else {
        return Err(key);
    };
    match number_of(found, low, high) {
        Some(number) => Ok(number),
        None => Err(key),
    }
}

fn number_if_any(value: &Value, key: Key, low: u64, high: u64) -> Result<Option<u64>, Key>
    ensures ok { IfOk result (λ o. number_if_any (name_of key) low high (view value.now) ≡ Ok o) }
    ensures err { IfErr result (λ k. number_if_any (name_of key) low high (view value.now) ≡ Err (name_of k)) }
    ensures within { IfOk result (λ o. IfSome o (λ n. (low ≤ n) × (n ≤ high))) }
{
    let Some(found) = value.get(key.name()) else {
        return Ok(None);
    };
    match number_of(found, low, high) {
        Some(number) => Ok(Some(number)),
        None => Err(key),
    }
}

/// A number that stands at a key exactly where it belongs there; 0 where it does not.
pub(crate) fn number_where(
    value: &Value,
    belongs: bool,
    key: Key,
    low: u64,
    high: u64,
) -> Result<u64, Key>
    ensures ok { IfOk result (λ n. number_where belongs (name_of key) low high (view value.now) ≡ Ok n) }
    ensures err { IfErr result (λ k. number_where belongs (name_of key) low high (view value.now) ≡ Err (name_of k)) }
    ensures within { IfOk result (λ n. n ≤ high) }
{
    if belongs {
        return number_at(value, key, low, high);
    }
    match value.get(key.name()) {
        None => Ok(0),
        Some(_) => Err(key),
    }
}

/// A number that may stand at a key where it belongs there.
pub(crate) fn option_where(
    value: &Value,
    belongs: bool,
    key: Key,
    low: u64,
    high: u64,
) -> Result<Option<u64>, Key>
    ensures ok { IfOk result (λ o. option_where belongs (name_of key) low high (view value.now) ≡ Ok o) }
    ensures err { IfErr result (λ k. option_where belongs (name_of key) low high (view value.now) ≡ Err (name_of k)) }
    ensures within { IfOk result (λ o. IfSome o (λ n. (low ≤ n) × (n ≤ high))) }
{
    if belongs {
        return number_if_any(value, key, low, high);
    }
    match value.get(key.name()) {
        None => Ok(None),
        Some(_) => Err(key),
    }
}

pub(crate) fn id_of(value: &Value) -> Option<Id>
    ensures { option_map (λ id. id.bytes) result ≡ id_of (view value.now) }
{
    id_text(value.as_str()?)
}

pub(crate) fn id_at(value: &Value, key: Key) -> Result<Id, Key>
    ensures ok { IfOk result (λ id. id_at (name_of key) (view value.now) ≡ Ok id.bytes) }
    ensures err { IfErr result (λ k. id_at (name_of key) (view value.now) ≡ Err (name_of k)) }
{
    let Some(found) = value.get(key.name()) else {
        return Err(key);
    };
    match id_of(found) {
        Some(id) => Ok(id),
        None => Err(key),
    }
}

fn items_of(value: &Value, most: usize) -> Option<&[Value]>
    ensures is { option_map (λ items. items_view items.now) result ≡ items_of most (view value.now) }
    ensures few { IfSome result (λ items. length items.now ≤ most) }
{
    let items = value.as_array()?.as_slice();
    if items.len() <= most {
        Some(items)
    } else {
        None
    }
}

pub(crate) fn items_at<'a>(value: &'a Value, key: Key, most: usize) -> Result<&'a [Value], Key>
    ensures ok { IfOk result (λ items. items_at (name_of key) most (view value.now) ≡ Ok (items_view items.now)) }
    ensures err { IfErr result (λ k. items_at (name_of key) most (view value.now) ≡ Err (name_of k)) }
    ensures few { IfOk result (λ items. length items.now ≤ most) }
{
    let Some(found) = value.get(key.name()) else {
        return Err(key);
    };
    match items_of(found, most) {
        Some(items) => Ok(items),
        None => Err(key),
    }
}

pub(crate) fn items_if_any<'a>(value: &'a Value, key: Key, most: usize) -> Result<&'a [Value], Key>
    ensures ok { IfOk result (λ items. items_if_any (name_of key) most (view value.now) ≡ Ok (items_view items.now)) }
    ensures err { IfErr result (λ k. items_if_any (name_of key) most (view value.now) ≡ Err (name_of k)) }
    ensures few { IfOk result (λ items. length items.now ≤ most) }
{
    let Some(found) = value.get(key.name()) else {
        return Ok(&[]);
    };
    match items_of(found, most) {
        Some(items) => Ok(items),
        None => Err(key),
    }
}
