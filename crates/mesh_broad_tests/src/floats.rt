// The nearest binary32. What is expected was computed with exact fractions, outside of this program.
use ember_wide::{Magnitude, Vast};
use mesh_broad::nearest_binary32;

// A sign, a numerator, a denominator, and the bits.
struct Row {
    negative: bool,
    numerator: Vast,
    denominator: Magnitude,
    want: Option<u32>,
}

const ROWS: [Row; 24] = [
    // zero
    Row {
        negative: false,
        numerator: Vast {
            high: Magnitude { high: 0, low: 0 },
            low: Magnitude { high: 0, low: 0 },
        },
        denominator: Magnitude { high: 0, low: 1 },
        want: Some(0),
    },
    // zero has no sign
    Row {
        negative: true,
        numerator: Vast {
            high: Magnitude { high: 0, low: 0 },
            low: Magnitude { high: 0, low: 0 },
        },
        denominator: Magnitude { high: 0, low: 7 },
        want: Some(0),
    },
    // one
    Row {
        negative: false,
        numerator: Vast {
            high: Magnitude { high: 0, low: 0 },
            low: Magnitude { high: 0, low: 1 },
        },
        denominator: Magnitude { high: 0, low: 1 },
        want: Some(1065353216),
    },
    // a whole number and a half, below zero
    Row {
        negative: true,
        numerator: Vast {
            high: Magnitude { high: 0, low: 0 },
            low: Magnitude { high: 0, low: 3 },
        },
        denominator: Magnitude { high: 0, low: 2 },
        want: Some(3217031168),
    },
    // between two floats: the even one
    Row {
        negative: false,
        numerator: Vast {
            high: Magnitude { high: 0, low: 0 },
            low: Magnitude {
                high: 0,
                low: 16777217,
            },
        },
        denominator: Magnitude { high: 0, low: 1 },
        want: Some(1266679808),
    },
    // the even one above
    Row {
        negative: false,
        numerator: Vast {
            high: Magnitude { high: 0, low: 0 },
            low: Magnitude {
                high: 0,
                low: 16777219,
            },
        },
        denominator: Magnitude { high: 0, low: 1 },
        want: Some(1266679810),
    },
    // a rest behind the middle
    Row {
        negative: false,
        numerator: Vast {
            high: Magnitude { high: 0, low: 0 },
            low: Magnitude {
                high: 559636004152235802,
                low: 226069973175445313295512045002532847721,
            },
        },
        denominator: Magnitude {
            high: 33356903242,
            low: 267693080802030053405902112149080637544,
        },
        want: Some(1266679809),
    },
    // a rest before the middle
    Row {
        negative: false,
        numerator: Vast {
            high: Magnitude { high: 0, low: 0 },
            low: Magnitude {
                high: 559636004152235802,
                low: 226069973175445313295512045002532847719,
            },
        },
        denominator: Magnitude {
            high: 33356903242,
            low: 267693080802030053405902112149080637544,
        },
        want: Some(1266679808),
    },
    // the middle, over a long denominator
    Row {
        negative: true,
        numerator: Vast {
            high: Magnitude { high: 0, low: 0 },
            low: Magnitude {
                high: 559636004152235802,
                low: 226069973175445313295512045002532847720,
            },
        },
        denominator: Magnitude {
            high: 33356903242,
            low: 267693080802030053405902112149080637544,
        },
        want: Some(3414163456),
    },
    // nearly two
    Row {
        negative: false,
        numerator: Vast {
            high: Magnitude { high: 0, low: 0 },
            low: Magnitude {
                high: 4722366482869645213695,
                low: 340282366920938463463374607431768211455,
            },
        },
        denominator: Magnitude {
            high: 2361183241434822606848,
            low: 1,
        },
        want: Some(1073741824),
    },
    // too small for a float
    Row {
        negative: false,
        numerator: Vast {
            high: Magnitude { high: 0, low: 0 },
            low: Magnitude { high: 0, low: 1 },
        },
        denominator: Magnitude {
            high: 34359738367,
            low: 340282366920938463463374607431768211455,
        },
        want: Some(0),
    },
    // a denominator of 200 bits
    Row {
        negative: false,
        numerator: Vast {
            high: Magnitude { high: 0, low: 0 },
            low: Magnitude {
                high: 34359738367,
                low: 340282366920938463463374607431768211455,
            },
        },
        denominator: Magnitude {
            high: 4722366482869645213695,
            low: 340282366920938463463374607431768211455,
        },
        want: Some(754974720),
    },
    // a half of the least float, and more
    Row {
        negative: false,
        numerator: Vast {
            high: Magnitude { high: 0, low: 0 },
            low: Magnitude { high: 0, low: 8193 },
        },
        denominator: Magnitude {
            high: 34359738368,
            low: 0,
        },
        want: Some(1),
    },
    // a half of the least float
    Row {
        negative: false,
        numerator: Vast {
            high: Magnitude { high: 0, low: 0 },
            low: Magnitude { high: 0, low: 8192 },
        },
        denominator: Magnitude {
            high: 34359738368,
            low: 0,
        },
        want: Some(0),
    },
    // the greatest float
    Row {
        negative: false,
        numerator: Vast {
            high: Magnitude { high: 0, low: 0 },
            low: Magnitude {
                high: 0,
                low: 340282346638528859811704183484516925440,
            },
        },
        denominator: Magnitude { high: 0, low: 1 },
        want: Some(2139095039),
    },
    // rounds to the greatest float
    Row {
        negative: false,
        numerator: Vast {
            high: Magnitude {
                high: 0,
                low: 34359737343,
            },
            low: Magnitude {
                high: 340282366920938463463374607431768211455,
                low: 10141204801825835211973625643007,
            },
        },
        denominator: Magnitude {
            high: 34359738367,
            low: 340282366920938463463374607431768211455,
        },
        want: Some(2139095039),
    },
    // rounds to infinity
    Row {
        negative: false,
        numerator: Vast {
            high: Magnitude {
                high: 0,
                low: 34359737343,
            },
            low: Magnitude {
                high: 340282366920938463463374607431768211455,
                low: 10141204801825835211973625643008,
            },
        },
        denominator: Magnitude {
            high: 34359738367,
            low: 340282366920938463463374607431768211455,
        },
        want: None,
    },
    // infinity
    Row {
        negative: true,
        numerator: Vast {
            high: Magnitude {
                high: 0,
                low: 18446744073709551615,
            },
            low: Magnitude {
                high: 340282366920938463463374607431768211455,
                low: 340282366920938463463374607431768211455,
            },
        },
        denominator: Magnitude {
            high: 34359738367,
            low: 340282366920938463463374607431768211455,
        },
        want: None,
    },
    // any
    Row {
        negative: true,
        numerator: Vast {
            high: Magnitude { high: 0, low: 0 },
            low: Magnitude {
                high: 291616690,
                low: 285450177960541988075751488269955293655,
            },
        },
        denominator: Magnitude {
            high: 28500225585,
            low: 229353646829600906325682491006744063508,
        },
        want: Some(3156714616),
    },
    // any
    Row {
        negative: false,
        numerator: Vast {
            high: Magnitude { high: 0, low: 0 },
            low: Magnitude {
                high: 1944085,
                low: 297600841062260762882093175268694185302,
            },
        },
        denominator: Magnitude {
            high: 31832249172,
            low: 9180832799740606059174616037979864386,
        },
        want: Some(947917883),
    },
    // any
    Row {
        negative: true,
        numerator: Vast {
            high: Magnitude { high: 0, low: 0 },
            low: Magnitude {
                high: 85054793205748892,
                low: 267490486071060229864351693520425277194,
            },
        },
        denominator: Magnitude {
            high: 31994932636,
            low: 197590240595973847268351906368835492460,
        },
        want: Some(3391242557),
    },
    // any
    Row {
        negative: false,
        numerator: Vast {
            high: Magnitude { high: 0, low: 0 },
            low: Magnitude {
                high: 127345302,
                low: 22853119287463802760726138987374583976,
            },
        },
        denominator: Magnitude {
            high: 31476703693,
            low: 114188150688422519197676362658307668813,
        },
        want: Some(998543819),
    },
    // any
    Row {
        negative: true,
        numerator: Vast {
            high: Magnitude {
                high: 0,
                low: 187008,
            },
            low: Magnitude {
                high: 93489686459381719833363956850684248409,
                low: 151597406926305519514534355453033316352,
            },
        },
        denominator: Magnitude {
            high: 21824730215,
            low: 137791558767009169860481902246610260658,
        },
        want: Some(4145005064),
    },
    // any
    Row {
        negative: false,
        numerator: Vast {
            high: Magnitude { high: 0, low: 0 },
            low: Magnitude {
                high: 68496493053143217579996,
                low: 88291249085354999482850109269516910592,
            },
        },
        denominator: Magnitude {
            high: 22563279513,
            low: 64768508908956340462432671686810286360,
        },
        want: Some(1412478006),
    },
];

#[test]
fn floats(rt: HostRuntime) {
    for row in &ROWS {
        let bits = nearest_binary32(row.negative, &row.numerator, &row.denominator);
        assert!(rt; bits == row.want);
    }
}
