// Lists of the plain values.
use std::alloc::Global;
use tree_model::{ListOf, Mem, Text};

/// The numbers 7 and 9.
fn numbers(alloc: Global) -> Result<ListOf<u32>, Mem> {
    let mut numbers = ListOf::new(alloc);
    numbers.push(7)?;
    numbers.push(9)?;
    Ok(numbers)
}

/// One pair of texts.
fn pairs(alloc: Global) -> Result<ListOf<(Text, Text)>, Mem> {
    let mut pairs = ListOf::new(alloc);
    pairs.push((Text::from_str(alloc, "func")?, Text::from_str(alloc, "1")?))?;
    Ok(pairs)
}

#[test]
fn lists_hold_what_is_put_there(rt: HostRuntime) -> Result<(), Mem> {
    let alloc = rt.alloc();
    let none: ListOf<u32> = ListOf::new(alloc);
    assert!(rt; none.is_empty());

    let numbers = numbers(alloc)?;
    assert_eq!(rt; numbers.as_slice(), [7, 9].as_slice());

    let pairs = pairs(alloc)?;
    assert!(rt; !pairs.is_empty());
    assert_eq!(rt; pairs.as_slice()[0].0.as_str(), "func");
    assert_eq!(rt; pairs.as_slice()[0].1.as_str(), "1");

    let moved = ListOf::from_vec(vec![in alloc; 1u32, 2, 3]?);
    assert_eq!(rt; moved.len(), 3);
    Ok(())
}
