//! Lists and shared values on their happy paths.
use emu_names::{ItemId, Memory, PlainData, Series, Shared, Text};
use std::alloc::Global;
use std::test::Fail;

/// The ids 1 to 3, of which the first is put in last.
fn ids(alloc: Global) -> Result<Series<ItemId>, Memory> {
    let mut list = Series::new(alloc);
    for number in [2, 3] {
        list.push(ItemId(number))?;
    }
    list.insert(0, ItemId(1))?;
    Ok(list)
}

#[test]
fn lists_grow_and_are_copied(rt: HostRuntime) -> Result<(), Fail> {
    let mut list = ids(rt.alloc())?;
    let copied = list.copy(rt.alloc())?;
    list.truncate(1);
    assert_eq!(rt; list.as_slice(), [ItemId(1)].as_slice());
    assert_eq!(rt;
        copied.as_slice(),
        [ItemId(1), ItemId(2), ItemId(3)].as_slice()
    );
    assert_eq!(rt; (copied.len(), copied.is_empty()), (3, false));
    Ok(())
}

#[test]
fn shared_values_outlive_an_owner(rt: HostRuntime) -> Result<(), Fail> {
    let first = Shared::new(rt.alloc(), Text::new(rt.alloc(), "kept")?)?;
    let second = first.copy(rt.alloc())?;
    drop(first);
    assert_eq!(rt; second.as_ref().as_str(), "kept");
    Ok(())
}
