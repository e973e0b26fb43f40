//! Items of cubes, looked up by cube and in the order of a tree.

use gathering::CubeTable;
use std::alloc::{AllocError, Global};
use std::test::Fail;
use test_samples::cube_of;

/// The cubes of the items 0 to 3, in the order in which they are put in.
static CUBES: [&[i32]; 4] = [&[], &[-1], &[1], &[-1]];

/// A cube, how many items it has, a number, and its item with this number.
type Asked<'a> = (&'a [i32], usize, usize, Option<u32>);

static ASKED: [Asked; 8] = [
    (&[], 1, 0, Some(0)),
    (&[-1], 2, 0, Some(1)),
    (&[-1], 2, 1, Some(3)),
    (&[-1], 2, 2, None),
    (&[1], 1, 0, Some(2)),
    (&[1], 1, 1, None),
    (&[2], 0, 0, None),
    (&[-1, 2], 0, 0, None),
];

/// What stands at the places 0 to 4 of the order, where it is the last item of its cube: each cube is
/// before those below it, and the half with the negative literal before the other.
static ORDERED: [Option<u32>; 5] = [Some(0), None, Some(3), Some(2), None];

fn table(alloc: Global) -> Result<CubeTable<u32>, AllocError> {
    let mut table = CubeTable::new(alloc);
    let mut item: u32 = 0;
    for numbers in CUBES {
        table.put(cube_of(alloc, 2, numbers)?, item)?;
        item = item.saturating_add(1);
    }
    table.sort()?;
    Ok(table)
}

/// Whether a table has of a cube what it should.
fn is_so(alloc: Global, table: &CubeTable<u32>, asked: &Asked) -> Result<bool, AllocError> {
    let (numbers, count, number, item) = *asked;
    let cube = cube_of(alloc, 2, numbers)?;
    Ok(table.count(&cube) == count && table.item(&cube, number).copied() == item)
}

#[test]
fn items_are_found_by_cube(rt: HostRuntime) -> Result<(), Fail> {
    let table = table(rt.alloc())?;
    for place in 0..ASKED.len() {
        assert!(rt; is_so(rt.alloc(), &table, &ASKED[place])?, "row {place}");
    }
    Ok(())
}

#[test]
fn items_have_the_order_of_a_tree(rt: HostRuntime) -> Result<(), Fail> {
    let table = table(rt.alloc())?;
    assert!(rt; table.len() == CUBES.len());
    for place in 0..ORDERED.len() {
        assert!(rt;
            table.last_at(place).copied() == ORDERED[place],
            "place {place}"
        );
    }
    Ok(())
}
