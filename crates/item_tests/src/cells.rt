use links::Links;
use std::test::Fail;

fn is_sent<T: Send>(_value: &T) {}

#[test]
fn cells_come_and_go(rt: HostRuntime) -> Result<(), Fail> {
    let mut links = Links::new(rt.alloc());
    links.reserve(2, 1)?;
    let list = links.add_list();
    let red = links.add_cell();
    let blue = links.add_cell();
    links.push_back(list, red);
    assert_eq!(rt; links.first(list), Some(red));
    assert_eq!(rt; links.next(red), None);
    links.insert_before(blue, red);
    assert_eq!(rt; links.first(list), Some(blue));
    assert_eq!(rt; links.next(blue), Some(red));
    links.unlink(red);
    assert_eq!(rt; links.first(list), Some(blue));
    assert_eq!(rt; links.next(blue), None);
    links.free_cell(red);
    links.unlink(blue);
    links.free_list(list);
    Ok(())
}

#[test]
fn cells_of_given_numbers(rt: HostRuntime) -> Result<(), Fail> {
    let mut links = Links::new(rt.alloc());
    links.reserve(2, 1)?;
    links.add_list_at(0);
    links.add_cell_at(0);
    links.add_cell_at(1);
    links.free_cell(0);
    links.add_cell_at(0);
    links.push_back(0, 0);
    links.push_back(0, 1);
    assert!(rt; links.first(0) == Some(0) && links.next(0) == Some(1) && links.is_linked(1));
    Ok(())
}

#[test]
fn numbers_have_32_bits(rt: HostRuntime) -> Result<(), Fail> {
    let mut links = Links::new(rt.alloc());
    is_sent(&links);
    assert!(rt; links.reserve(4294967296, 0).is_err() && links.reserve(0, usize::MAX).is_err());
    Ok(())
}
