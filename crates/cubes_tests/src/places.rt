//! Worked rows: places of cubes.
use cubes::place_of;
use std::alloc::{AllocError, Global};
use std::test::Fail;
use test_samples::cube_of;

/// How many variables a cube is over, its numbers, and its place.
type Row = (u32, &'static [i32], u64);

static ROWS: [Row; 11] = [
    (7, &[], 0),
    (7, &[-1], 0),
    (7, &[1], 2_147_483_648),
    (7, &[-4, 7], 1_073_741_824),
    (7, &[-1, -2], 0),
    (7, &[-1, 2], 1_073_741_824),
    (7, &[1, -2], 2_147_483_648),
    (7, &[1, 2], 3_221_225_472),
    // deep cubes
    (
        33,
        &[
            1, 2, 3, 4, 5, 6, 7, 8, 9, 10, 11, 12, 13, 14, 15, 16, 17, 18, 19, 20, 21, 22, 23, 24,
            25, 26, 27, 28, 29, 30, 31,
        ],
        0xffff_fffe,
    ),
    (
        33,
        &[
            1, 2, 3, 4, 5, 6, 7, 8, 9, 10, 11, 12, 13, 14, 15, 16, 17, 18, 19, 20, 21, 22, 23, 24,
            25, 26, 27, 28, 29, 30, 31, 32,
        ],
        0xffff_ffff,
    ),
    (
        33,
        &[
            1, 2, 3, 4, 5, 6, 7, 8, 9, 10, 11, 12, 13, 14, 15, 16, 17, 18, 19, 20, 21, 22, 23, 24,
            25, 26, 27, 28, 29, 30, 31, 32, 33,
        ],
        0xffff_ffff,
    ),
];

/// Whether a row's cube has its place.
fn is_there(alloc: Global, row: &Row) -> Result<bool, AllocError> {
    let (vars, numbers, place) = *row;
    let cube = cube_of(alloc, vars, numbers)?;
    Ok(place_of(&cube) == place)
}

#[test]
fn places(rt: HostRuntime) -> Result<(), Fail> {
    for row in &ROWS {
        assert!(rt; is_there(rt.alloc(), row)?, "{:?}", row.1);
    }
    Ok(())
}
