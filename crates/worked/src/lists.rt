// A list that is full, and places past the entries.
use fault::Fault;
use list::List;
use std::test::Fail;

#[test]
fn a_full_list_refuses(rt: HostRuntime) -> Result<(), Fail> {
    let mut room: [u16; 2] = [7, 8];
    let mut list = List::over(&mut room);
    list.push(1)?;
    assert_eq!(rt; list.get(1), None);
    list.push(2)?;
    assert_eq!(rt; list.push(3), Err(Fault::ShortBuffer));
    assert_eq!(rt; list.get(0), Some(1));
    assert_eq!(rt; list.get(1), Some(2));
    assert_eq!(rt; list.len(), 2);
    Ok(())
}

#[test]
fn places_past_the_entries_stay(rt: HostRuntime) -> Result<(), Fail> {
    let mut room: [u16; 3] = [7, 8, 9];
    let mut list = List::over(&mut room);
    assert_eq!(rt; list.replace(&[1, 2, 3, 4]), Err(Fault::ShortBuffer));
    list.replace(&[1, 2])?;
    assert_eq!(rt; list.len(), 2);
    assert_eq!(rt; list.get(2), None);
    assert_eq!(rt; list.capacity(), 3);
    list.clear();
    assert_eq!(rt; list.len(), 0);
    assert_eq!(rt; room, [1, 2, 9]);
    Ok(())
}
