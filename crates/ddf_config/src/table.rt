//! Tables that are built entry by entry.
ghost use Rattle.std.specs.Prelude.{◌≡◌, [], ◌∷◌, ◌++◌, None, IfSome, option_to_list, option_map, OnOk, OnErr};
ghost use Rattle.indexmap.specs.IndexMap.{get};

use ddf_bytes::NoMemory;
use indexmap::IndexMap;
use std::hash::Hash;

/// Puts an entry whose key is new behind the others.
///
/// # Errors
/// Memory ran out: the table is as it was.
pub fn put_last<K: Eq + Hash + Drop, V: Drop>(
    table: &mut IndexMap<K, V>,
    key: K,
    value: V,
) -> Result<(), NoMemory>
    requires { get K.eq table.old key ≡ None }
    ensures put { OnOk result (table.new.entries ≡ table.old.entries ++ (key, value) ∷ []) }
    ensures kept { OnErr result (table.new.entries ≡ table.old.entries) }
{
    table.insert(key, value)?;
    Ok(())
}

/// Puts an entry whose key is new behind the others, where there is a value.
///
/// # Errors
/// Memory ran out: the table is as it was.
pub fn put_some<K: Eq + Hash + Drop, V: Drop>(
    table: &mut IndexMap<K, V>,
    key: K,
    value: Option<V>,
) -> Result<(), NoMemory>
    requires { IfSome value (λ _. get K.eq table.old key ≡ None) }
    ensures put { OnOk result (table.new.entries ≡ table.old.entries ++ option_to_list (option_map (λ v. (key, v)) value)) }
    ensures kept { OnErr result (table.new.entries ≡ table.old.entries) }
{
    match value {
        Some(value) => put_last(table, key, value),
        None => Ok(()),
    }
}
