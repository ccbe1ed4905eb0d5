//! Maps from keys to lists.
ghost use Rattle.std.specs.Prelude.{◌≡◌, ◌<◌, [], ◌∷◌, ◌++◌, ◌&&◌};
ghost use Rattle.std.specs.Vec.{vec_len, vec_capacity};
ghost use Rattle.std.specs.Prelude.{OnOk, OnErr, filter, not, if◌then◌else◌};
ghost use Rattle.std.specs.BTreeMap.{get, is_at, IsOrdered};
ghost use Rattle.std.specs.List.{IsDistinct, list_any};
ghost use Rattle.std.specs.List.Sorted.{IsStrictlySortedBy};
ghost use Rattle.std.specs.Ordering.{eq_by_cmp};
ghost use Rattle.nw_waiting.specs.Lists.{AreFilled, list_of};

use nw_digest::NoMemory;
use std::alloc::Allocator;
use std::collections::BTreeMap;

/// Makes room for one more value. An empty list gets room for just one, since most lists stay that short.
///
/// `NoMemory` if an allocation fails. The values stay the same in any case.
pub fn make_room<V: Copy, A: Allocator>(list: &mut Vec<V, A>) -> Result<(), NoMemory>
    ensures items { list.new.items ≡ list.old.items }
    ensures room { OnOk result (vec_len list.new < vec_capacity list.new) }
{
    if list.is_empty() {
        list.reserve_exact(1)?;
    } else {
        list.reserve(1)?;
    }
    Ok(())
}

/// Appends the value to the list of the key. If an allocation fails, each list keeps the values that it had.
pub fn add<K: Ord + Copy, V: Copy, A: Allocator + Copy>(
    lists: &mut BTreeMap<K, Vec<V, A>, A>,
    alloc: A,
    key: K,
    value: V,
) -> Result<(), NoMemory>
    ensures added { OnOk result ((q : K) → list_of (λ v. v.items) (get K.cmp lists.new q)
        ≡ (if is_at (K.cmp key) q
        then list_of (λ v. v.items) (get K.cmp lists.old q) ++ value ∷ []
        else list_of (λ v. v.items) (get K.cmp lists.old q))) }
    ensures kept { OnErr result ((q : K) → list_of (λ v. v.items) (get K.cmp lists.new q)
        ≡ list_of (λ v. v.items) (get K.cmp lists.old q)) }
    ensures filled { AreFilled (λ v. v.items) (get K.cmp lists.old)
        → AreFilled (λ v. v.items) (get K.cmp lists.new) }
    ensures ordered { IsOrdered K.cmp lists.new }
{
    let list = lists
        .entry(key)?
        .or_try_insert_with(|| Vec::with_capacity(alloc, 1))?;
    list.push(value)?;
    Ok(())
}

/// Removes the value from the list of the key. If the list is then empty, drops it.
fn remove<K: Ord + Drop, V: Ord + Drop, A: Allocator>(
    lists: &mut BTreeMap<K, Vec<V, A>, A>,
    key: &K,
    value: &V,
)
    requires { (q : K) → IsDistinct (eq_by_cmp V.cmp) (list_of (λ v. v.items) (get K.cmp lists.old q)) }
    ensures removed { (q : K) → list_of (λ v. v.items) (get K.cmp lists.new q)
        ≡ (if is_at (K.cmp key.now) q
        then filter (λ x. not (eq_by_cmp V.cmp x value.now))
        (list_of (λ v. v.items) (get K.cmp lists.old q))
        else list_of (λ v. v.items) (get K.cmp lists.old q)) }
    ensures filled { AreFilled (λ v. v.items) (get K.cmp lists.old)
        → AreFilled (λ v. v.items) (get K.cmp lists.new) }
    ensures ordered { IsOrdered K.cmp lists.new }
{
    let Some(list) = lists.get_mut(key) else {
        return;
    };
    drop_value(list, value);
    if list.is_empty() {
        lists.remove(key);
    }
}

/// Removes the value from the list, which has it at most once. Searches by halves first: lists of parents ascend.
fn drop_value<V: Ord + Drop, A: Allocator>(list: &mut Vec<V, A>, value: &V)
    requires { IsDistinct (eq_by_cmp V.cmp) list.old.items }
    ensures { list.new.items ≡ filter (λ x. not (eq_by_cmp V.cmp x value.now)) list.old.items }
{
    match list.binary_search(value) {
        Ok(place) => {
            let _removed = list.remove(place);
        }
        Err(_) => list.retain(|other| other != value),
    }
}

/// Removes the value from the lists of these keys.
pub fn remove_from_each<K: Ord + Drop, V: Ord + Drop, A: Allocator>(
    lists: &mut BTreeMap<K, Vec<V, A>, A>,
    keys: &[K],
    value: &V,
)
    requires { (q : K)
        → IsDistinct (eq_by_cmp V.cmp) (list_of (λ list. list.items) (get K.cmp lists.old q)) }
    ensures removed { (q : K) (v : V)
        → list_any (eq_by_cmp V.cmp v) (list_of (λ list. list.items) (get K.cmp lists.new q))
        ≡ (list_any (eq_by_cmp V.cmp v) (list_of (λ list. list.items) (get K.cmp lists.old q))
        && not (list_any (eq_by_cmp K.cmp q) keys.now && eq_by_cmp V.cmp v value.now)) }
    ensures once { (q : K)
        → IsDistinct (eq_by_cmp V.cmp) (list_of (λ list. list.items) (get K.cmp lists.new q)) }
    ensures ascending { ((q : K)
        → IsStrictlySortedBy V.cmp (list_of (λ list. list.items) (get K.cmp lists.old q)))
        → (q : K)
        → IsStrictlySortedBy V.cmp (list_of (λ list. list.items) (get K.cmp lists.new q)) }
    ensures filled { AreFilled (λ v. v.items) (get K.cmp lists.old)
        → AreFilled (λ v. v.items) (get K.cmp lists.new) }
    ensures ordered { IsOrdered K.cmp lists.old → IsOrdered K.cmp lists.new }
{
    for key in keys {
        remove(lists, key, value);
    }
}
