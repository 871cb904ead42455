// Meets of planes of the broad grid. What is expected was computed with exact fractions, outside of this
// program, from planes of triangles whose corners are as far out as the grid goes.
use crate::planes::broad_plane;
use ember_width::{Broad, BroadPoint, Width};

fn meet_of(planes: &[[i64; 4]; 3]) -> Option<BroadPoint> {
    let [p, q, r] = planes;
    Broad::meet(&broad_plane(*p), &broad_plane(*q), &broad_plane(*r))
}

// The planes meet in a point by its floors, and these are they and what is left.
fn is_floored(planes: &[[i64; 4]; 3], floor: &[i32; 3], rest: &[i128; 4]) -> bool {
    match meet_of(planes) {
        Some(BroadPoint::Floored(m)) => {
            [m.floor.x, m.floor.y, m.floor.z] == *floor && [m.x, m.y, m.z, m.w] == *rest
        }
        _ => false,
    }
}

static FLOORED: [([[i64; 4]; 3], [i32; 3], [i128; 4]); 6] = [
    // the greatest weight found
    (
        [
            [
                1099506384902,
                -1099507433475,
                1099506384902,
                576456354267922423,
            ],
            [
                1099507433476,
                892690892012,
                1026794661154,
                429903868437911030,
            ],
            [
                1099507433476,
                554956740926,
                -1099507433476,
                -290956604829869762,
            ],
        ],
        [114765, -60837, 348683],
        [
            3214985450670644890110959477286444360,
            391155356104031848362847166975140656,
            3931174107452480909263496024669428944,
            4684529732975543586977586225745702304,
        ],
    ),
    // the greatest numerators found
    (
        [
            [
                1099504287754,
                1099506384896,
                1099504287754,
                576453605505105890,
            ],
            [
                -575444322874,
                1099506890340,
                1099503695618,
                -301698501769208304,
            ],
            [
                -753016640916,
                -1099507433476,
                1099507433476,
                394796835615926892,
            ],
        ],
        [524285, -359067, 359066],
        [
            3096868913160614552947024685446725936,
            1551392907257582803314927317106983360,
            2175008582433501193616990383218281872,
            4049739426201518004337088394388384544,
        ],
    ),
    // the last corner
    (
        [
            [1099507433476, 0, 0, 576457453774831612],
            [0, 1099507433476, 0, 576457453774831612],
            [0, 0, 1099507433476, -576457453774831612],
        ],
        [524287, 524287, -524287],
        [0, 0, 0, 1329212784050248498860689995818074176],
    ),
    // planes with a coordinate fixed
    (
        [
            [0, -1099505336328, -557338038012, -284251266332200692],
            [450530, 0, -448399602472, -235089364671131702],
            [-1821933, -1048578, -636809309892, -333870437195374119],
        ],
        [252421, -7234, 524285],
        [
            1093119564555109566655074828864,
            828691522352570553534911369232,
            792563943653872962047497482048,
            1213695003823155177559084272528,
        ],
    ),
    // coordinates below 0
    (
        [
            [-82941492672, 94755307680, -11289845694, 12113103027639810],
            [4729895040, -44498170880, 415006877730, -196732720869102430],
            [317670905432, 2752438900, -452618324748, 119287590919885384],
        ],
        [-325771, -216119, -493507],
        [
            5230772063816592437836775874912000,
            1770787134478234088450184792768000,
            1207260729979552209353341259980800,
            10959485649418211740746067291822080,
        ],
    ),
    // the low wall of the root
    (
        [
            [549755813888, 0, 0, -288230376151711744],
            [0, 549755813888, 0, 0],
            [0, 0, 549755813888, 0],
        ],
        [-524288, 0, 0],
        [0, 0, 0, 166153499473114484112975882535043072],
    ),
];

#[test]
fn meets_by_their_floors(rt: HostRuntime) {
    for (planes, floor, rest) in &FLOORED {
        assert!(rt; is_floored(planes, floor, rest));
    }
}

// The planes meet in a short point of these numbers.
fn is_short(planes: &[[i64; 4]; 3], numbers: &[i64; 4]) -> bool {
    match meet_of(planes) {
        Some(BroadPoint::Short(m)) => [m.x, m.y, m.z, m.w] == *numbers,
        _ => false,
    }
}

static SHORT: [([[i64; 4]; 3], [i64; 4]); 2] = [
    ([[1, 1, 1, 1], [1, -1, 0, 0], [0, 1, -1, 0]], [1, 1, 1, 3]),
    (
        [[3, 0, 0, -1], [0, 5, 0, 2], [0, 0, 7, -3]],
        [-35, 42, -45, 105],
    ),
];

#[test]
fn short_meets(rt: HostRuntime) {
    for (planes, numbers) in &SHORT {
        assert!(rt; is_short(planes, numbers));
    }
}

fn is_far(planes: &[[i64; 4]; 3]) -> bool {
    matches!(meet_of(planes), Some(BroadPoint::Far(_)))
}

static FAR: [[[i64; 4]; 3]; 2] = [
    [
        [0, 1099504287754, 1099504287754, 0],
        [
            1004352488698,
            1099504287754,
            -1077653025941,
            538023277039183261,
        ],
        [
            1099505336328,
            -1099504287754,
            1099505336328,
            576455804513681398,
        ],
    ],
    [
        [549755813888, 0, 0, 288230376151711744],
        [0, 549755813888, 0, 0],
        [0, 0, 549755813888, 0],
    ],
];

#[test]
fn meets_outside_of_the_root(rt: HostRuntime) {
    for planes in &FAR {
        assert!(rt; is_far(planes));
    }
}

#[test]
fn planes_without_one_point_in_common(rt: HostRuntime) {
    assert!(rt; meet_of(&[[1, 0, 0, 0], [2, 0, 0, 5], [0, 1, 0, 0]]).is_none());
}
