//! Lists: their elements, their order and their room.
use sequence::Sequence;
use std::test::Fail;

#[test]
fn elements_stay_in_order(rt: HostRuntime) -> Result<(), Fail> {
    let mut name = Sequence::new(rt.alloc());
    assert!(rt; name.is_empty());
    for byte in b"fuel" {
        name.push(*byte)?;
    }
    assert_eq!(rt; name.len(), 4);
    name.set(0, b'd');
    assert_eq!(rt; name.bytes(), b"duel".as_slice());
    assert_eq!(rt; name.get(3), Some(&b'l'));
    assert_eq!(rt; name.get(4), None);
    assert_eq!(rt; name.into_vec().as_slice(), b"duel".as_slice());
    Ok(())
}

#[test]
fn sizes_grow_from_none_to_many(rt: HostRuntime) -> Result<(), Fail> {
    for size in [0, 1, 70_000usize] {
        let mut numbers = Sequence::new(rt.alloc());
        for number in 0..size {
            numbers.push(number)?;
        }
        assert_eq!(rt; numbers.len(), size);
        assert_eq!(rt; numbers.is_empty(), size == 0);
        assert_eq!(rt; numbers.get(size), None);
        for (index, number) in numbers.as_slice().iter().enumerate() {
            assert_eq!(rt; *number, index);
        }
        let mut copied = Sequence::from_slice(rt.alloc(), numbers.as_slice())?;
        assert_eq!(rt; copied.as_slice(), numbers.as_slice());
        copied.extend_from_slice(numbers.as_slice())?;
        assert_eq!(rt; copied.len(), 2 * size);
        let roomy: Sequence<usize> = Sequence::with_capacity(rt.alloc(), size)?;
        assert!(rt; roomy.is_empty());
        assert_eq!(rt; roomy.into_vec().capacity(), size);
    }
    Ok(())
}

#[test]
fn elements_are_taken_over(rt: HostRuntime) -> Result<(), Fail> {
    let mut values = Sequence::with_capacity(rt.alloc(), 3)?;
    assert!(rt; values.is_empty());
    values.push(7)?;
    values.extend_from_slice(&[-1, 0i64])?;
    assert_eq!(rt; values.as_slice(), [7, -1, 0].as_slice());
    let copied = Sequence::from_slice(rt.alloc(), values.as_slice())?;
    assert_eq!(rt; copied.as_slice(), values.as_slice());
    let moved = Sequence::from_vec(copied.into_vec());
    assert_eq!(rt; moved.as_slice(), values.as_slice());
    Ok(())
}
