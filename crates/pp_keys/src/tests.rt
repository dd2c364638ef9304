//! Tables over keys.
use crate::keys::HashKeys;
use indexmap::{IndexMap, IndexSet};
use std::collections::HashSet;
use std::test::Fail;

#[test]
fn tables_answer_over_any_keys(rt: HostRuntime) -> Result<(), Fail> {
    for keys in [HashKeys::fixed(), HashKeys::random(&rt)] {
        let mut numbers: IndexSet<u64, HashKeys> = IndexSet::with_hasher(rt.alloc(), keys);
        for number in [7, 3, 7, 9] {
            numbers.insert(number)?;
        }
        assert_eq!(rt; numbers.len(), 3);
        assert_eq!(rt; numbers.get_index_of(&9), Some(2));

        let mut ids: HashSet<u64, HashKeys> = HashSet::with_hasher(rt.alloc(), keys);
        ids.insert(5)?;
        assert!(rt; ids.contains(&5));
        assert!(rt; !ids.contains(&6));

        let mut texts: IndexMap<Vec<u8>, u64, HashKeys> = IndexMap::with_hasher(rt.alloc(), keys);
        texts.insert(vec![in rt.alloc(); 97, 98]?, 1)?;
        texts.insert(vec![in rt.alloc(); 99]?, 2)?;
        assert_eq!(rt; texts.get(&vec![in rt.alloc(); 99]?).copied(), Some(2));
    }
    Ok(())
}
