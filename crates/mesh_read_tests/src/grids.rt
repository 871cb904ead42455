// Grids for the numbers of mesh files: cells, steps and offsets.
use mesh_grid::{
    Coordinates, GridSize, GridStep, Offset, are_coordinates, cell, finest_step,
    finest_step_within, nice_step, nice_step_within, offset_at, offset_within,
};
use mesh_number::{Number, read_decimal};
use std::process::Abort;
use std::test::Fail;

fn number(text: &[u8]) -> Result<Number<'_>, Fail> {
    Ok(read_decimal(text).ok_or("no decimal")?)
}

static CELLS_ARE_NEAREST: [(&[u8], u64, u64, i128); 9] = [
    (b"0.25", 1, 2, 1),
    (b"-0.25", 1, 2, 0),
    (b"0.75", 1, 2, 2),
    (b"-0.75", 1, 2, -1),
    (b"0.7499999999999999999999", 1, 2, 1),
    (b"12345.678", 1, 100, 1_234_568),
    (b"-1e-30", 1, 1, 0),
    (b"2.5", 5, 1, 1),
    (b"-2.5", 5, 1, 0),
];

#[test]
fn cells_are_nearest(rt: HostRuntime) -> Result<(), Fail> {
    for &(text, numerator, denominator, want) in &CELLS_ARE_NEAREST {
        let number = number(text)?;
        let step = GridStep {
            numerator,
            denominator,
        };
        assert!(rt; mesh_number::is_below_limit(&number));
        assert!(rt; 0 < numerator && numerator < 1 << 40);
        assert!(rt; 0 < denominator && denominator < 1 << 40);
        assert!(rt; cell(&number, &step) == want);
    }
    Ok(())
}

// The nice step, the finest step and the offset of a scene with two corners.
fn grid(
    rt: &impl Abort,
    low: [&[u8]; 3],
    high: [&[u8]; 3],
) -> Result<(Option<GridStep>, Option<GridStep>, Option<Offset>), Fail> {
    let x = [number(low[0])?, number(high[0])?];
    let y = [number(low[1])?, number(high[1])?];
    let z = [number(low[2])?, number(high[2])?];
    let coordinates = Coordinates {
        x: &x,
        y: &y,
        z: &z,
    };
    assert!(rt; are_coordinates(&coordinates));
    let nice = nice_step(&coordinates);
    let offset = match nice {
        Some(step) => offset_at(&coordinates, &step),
        None => None,
    };
    Ok((nice, finest_step(&coordinates), offset))
}

fn step(numerator: u64, denominator: u64) -> Option<GridStep> {
    Some(GridStep {
        numerator,
        denominator,
    })
}

fn offset(x: i128, y: i128, z: i128) -> Option<Offset> {
    Some(Offset { x, y, z })
}

#[test]
fn grids_of_scenes(rt: HostRuntime) -> Result<(), Fail> {
    let box_of_15 = grid(&rt, [b"0", b"0", b"0"], [b"15", b"10", b"10"])?;
    assert!(rt;
        box_of_15
            == (
                step(5, 1000),
                step(3664, 1_000_000),
                offset(1500, 1000, 1000)
            )
    );
    let far = grid(
        &rt,
        [b"2000000000", b"0", b"-5"],
        [b"2000000010.5", b"10", b"5"],
    )?;
    assert!(rt; far.0 == step(5, 1000));
    assert!(rt; far.2 == offset(400_000_001_050, 1000, 0));
    let large = grid(
        &rt,
        [b"-999999999999999", b"0", b"0"],
        [b"999999999999999", b"0", b"0"],
    )?;
    assert!(rt;
        large
            == (
                step(500_000_000_000, 1),
                step(488_500_000_000, 1),
                offset(0, 0, 0)
            )
    );
    let tiny = grid(&rt, [b"1e-20", b"0", b"7"], [b"3e-20", b"0", b"7"])?;
    assert!(rt; tiny.0 == step(1, 1_000_000_000_000));
    assert!(rt; tiny.2 == offset(0, 0, 7_000_000_000_000));
    let too_long_by_a_cell = grid(&rt, [b"0", b"0", b"0"], [b"4.0945", b"0", b"0"])?;
    assert!(rt; too_long_by_a_cell.0 == step(2, 1000));
    let long = grid(&rt, [b"0", b"0", b"0"], [b"4.0944999", b"0", b"0"])?;
    assert!(rt; long == (step(1, 1000), step(1000, 1_000_000), offset(2047, 0, 0)));
    Ok(())
}

// Two numbers along x, with zeros along y and z: the nice step of the broad grid, its finest step,
// and the offset along x at the nice step. The broad grid has 1,048,574 steps.
static BROAD_GRIDS: [(&[u8], &[u8], (u64, u64), (u64, u64), i128); 5] = [
    (b"0", b"15", (2, 100_000), (1431, 100_000_000), 375_000),
    (b"0", b"1048.57449", (1, 1000), (1000, 1_000_000), 524_287),
    (b"0", b"1048.5745", (2, 1000), (1001, 1_000_000), 0),
    (b"-524.287", b"524.287", (1, 1000), (1000, 1_000_000), 0),
    (b"-524.286", b"524.288", (1, 1000), (1000, 1_000_000), 1),
];

#[test]
fn broad_grids_of_scenes(rt: HostRuntime) -> Result<(), Fail> {
    for &(low, high, nice, finest, along_x) in &BROAD_GRIDS {
        let x = [number(low)?, number(high)?];
        let zeros = [number(b"0")?, number(b"0")?];
        let coordinates = Coordinates {
            x: &x,
            y: &zeros,
            z: &zeros,
        };
        assert!(rt; are_coordinates(&coordinates));
        assert!(rt; finest_step_within(&coordinates, GridSize::Broad) == step(finest.0, finest.1));
        match nice_step_within(&coordinates, GridSize::Broad) {
            Some(found) => {
                assert!(rt; Some(found) == step(nice.0, nice.1));
                let lies = offset_within(&coordinates, &found, GridSize::Broad);
                assert!(rt; lies == offset(along_x, 0, 0));
            }
            None => return Err(Fail::from("no nice step")),
        }
    }
    Ok(())
}
