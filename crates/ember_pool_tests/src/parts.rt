// Items of leaves, merged from their parts in several orders.
use ember_tree::{Part, merge};
use std::test::Fail;

#[test]
fn paths_in_any_order_merge_alike(rt: HostRuntime) -> Result<(), Fail> {
    let alloc = rt.alloc();
    let orders = [
        [4u64, 10, 11, 3],
        [3, 11, 10, 4],
        [10, 11, 3, 4],
        [11, 3, 4, 10],
    ];
    for paths in orders {
        let mut parts = Vec::new(alloc);
        for path in paths {
            let Ok(()) = parts.push(Part { path, item: path }) else {
                return Err(Fail::from("memory"));
            };
        }
        let items = merge(alloc, parts)?;
        assert!(rt; items.as_slice() == [4, 10, 11, 3].as_slice());
    }
    Ok(())
}
