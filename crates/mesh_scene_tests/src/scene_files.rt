// Scenes as JSON.
use ember_words::Text;
use mesh_grid::{Grid, GridStep, Length, Offset};
use mesh_scene::{Counts, SceneFileFault, read_grid, scene_text};
use std::alloc::Global;
use std::test::Fail;

const GRID: Grid = Grid {
    step: GridStep {
        numerator: 2,
        denominator: 10,
    },
    offset: Offset {
        x: -1,
        y: 0,
        z: 9_007_199_254_740_993,
    },
};

const COUNTS: [Counts; 2] = [
    Counts {
        triangles: 12,
        vanished: 0,
        flat: 0,
    },
    Counts {
        triangles: 14,
        vanished: 1,
        flat: 2,
    },
];

const MOVES: [Length; 2] = [
    Length {
        size: 0,
        places: 12,
    },
    Length {
        size: 250_000_000,
        places: 11,
    },
];

const SCENE: &[u8] = b"\
{\n  \"step\": \"1/5\",\n  \"offset\": [-1, 0, 9007199254740993],\n  \"files\": [\n    \
{\"file\": \"a.stl\", \"triangles\": 12, \"vanished\": 0, \"without area\": 0, \"greatest move\": \"0\"},\n    \
{\"file\": \"b \\\"2\\\".obj\", \"triangles\": 14, \"vanished\": 1, \"without area\": 2, \"greatest move\": \"0.0025\"}\n  \
]\n}\n";

fn text(alloc: Global, name: &str) -> Result<Text, Fail> {
    Ok(Text::of(String::from_str(alloc, name)?))
}

#[test]
fn a_scene_is_written_and_read_again(rt: HostRuntime) -> Result<(), Fail> {
    let alloc = rt.alloc();
    let names = vec![in alloc; text(alloc, "a.stl")?, text(alloc, "b \"2\".obj")?]?;
    let written = scene_text(alloc, &GRID, &names, &COUNTS, &MOVES)?;
    assert!(rt; written.as_slice() == SCENE);
    let grid = Grid {
        step: GridStep {
            numerator: 1,
            denominator: 5,
        },
        offset: GRID.offset,
    };
    assert!(rt; read_grid(alloc, &written) == Ok(grid));
    Ok(())
}

#[test]
fn other_members_are_passed_over(rt: HostRuntime) -> Result<(), Fail> {
    let bytes = b"[{}]";
    assert!(rt; read_grid(rt.alloc(), bytes) == Err(SceneFileFault::NotAScene));
    let bytes =
        b"{\"offset\":[0,7,-9223372036854775808],\"more\":[1.5],\"step\":\"2/1099511627775\"}";
    let grid = Grid {
        step: GridStep {
            numerator: 2,
            denominator: 1_099_511_627_775,
        },
        offset: Offset {
            x: 0,
            y: 7,
            z: -9_223_372_036_854_775_808,
        },
    };
    assert!(rt; read_grid(rt.alloc(), bytes) == Ok(grid));
    Ok(())
}

static OTHER_FILES_ARE_NO_SCENES: [&[u8]; 16] = [
    b"",
    b"\xff",
    b"ember 1\n",
    b"{\"step\": \"1/5\", \"offset\": [0, 0, 0]",
    b"{\"step\": \"1/5\"}",
    b"{\"offset\": [0, 0, 0]}",
    b"{\"step\": 0.2, \"offset\": [0, 0, 0]}",
    b"{\"step\": \"0.2\", \"offset\": [0, 0, 0]}",
    b"{\"step\": \"1/0\", \"offset\": [0, 0, 0]}",
    b"{\"step\": \"+1/5\", \"offset\": [0, 0, 0]}",
    b"{\"step\": \"1/05\", \"offset\": [0, 0, 0]}",
    b"{\"step\": \"1/1099511627776\", \"offset\": [0, 0, 0]}",
    b"{\"step\": \"1/5\", \"offset\": [0, 0]}",
    b"{\"step\": \"1/5\", \"offset\": [0, 0, 0, 0]}",
    b"{\"step\": \"1/5\", \"offset\": [0, 0, 0.5]}",
    b"{\"step\": \"1/5\", \"offset\": [0, 0, 9223372036854775808]}",
];

#[test]
fn other_files_are_no_scenes(rt: HostRuntime) -> Result<(), Fail> {
    for &bytes in &OTHER_FILES_ARE_NO_SCENES {
        assert!(rt; read_grid(rt.alloc(), bytes) == Err(SceneFileFault::NotAScene));
    }
    Ok(())
}
