// Quotients, and the nearest whole numbers. What is expected was computed with exact fractions, outside of this program.
use ember_wide::{Magnitude, Vast};
use mesh_broad::{LongNumber, divide, long_numerator, nearest, nearest_multiple};

// A numerator, a denominator, the quotient, the rest, and the nearest whole number.
struct Row {
    numerator: Vast,
    denominator: Magnitude,
    whole: u128,
    rest: Magnitude,
    nearest: u128,
}

const ROWS: [Row; 13] = [
    // nothing
    Row {
        numerator: Vast {
            high: Magnitude { high: 0, low: 0 },
            low: Magnitude { high: 0, low: 0 },
        },
        denominator: Magnitude { high: 0, low: 1 },
        whole: 0,
        rest: Magnitude { high: 0, low: 0 },
        nearest: 0,
    },
    // a half: the even one above
    Row {
        numerator: Vast {
            high: Magnitude { high: 0, low: 0 },
            low: Magnitude { high: 0, low: 7 },
        },
        denominator: Magnitude { high: 0, low: 2 },
        whole: 3,
        rest: Magnitude { high: 0, low: 1 },
        nearest: 4,
    },
    // a half: the even one below
    Row {
        numerator: Vast {
            high: Magnitude { high: 0, low: 0 },
            low: Magnitude { high: 0, low: 5 },
        },
        denominator: Magnitude { high: 0, low: 2 },
        whole: 2,
        rest: Magnitude { high: 0, low: 1 },
        nearest: 2,
    },
    // the greatest quotient, just below a half
    Row {
        numerator: Vast {
            high: Magnitude {
                high: 0,
                low: 170141183460469231731687303715884105727,
            },
            low: Magnitude {
                high: 85070591730234615865843651857942052863,
                low: 1,
            },
        },
        denominator: Magnitude {
            high: 170141183460469231731687303715884105727,
            low: 340282366920938463463374607431768211455,
        },
        whole: 340282366920938463463374607431768211454,
        rest: Magnitude {
            high: 85070591730234615865843651857942052863,
            low: 340282366920938463463374607431768211455,
        },
        nearest: 340282366920938463463374607431768211454,
    },
    // just above a half
    Row {
        numerator: Vast {
            high: Magnitude {
                high: 0,
                low: 170141183460469231731687303715884105726,
            },
            low: Magnitude {
                high: 255211775190703847597530955573826158591,
                low: 3,
            },
        },
        denominator: Magnitude {
            high: 170141183460469231731687303715884105727,
            low: 340282366920938463463374607431768211455,
        },
        whole: 340282366920938463463374607431768211453,
        rest: Magnitude {
            high: 85070591730234615865843651857942052864,
            low: 0,
        },
        nearest: 340282366920938463463374607431768211454,
    },
    // just below one
    Row {
        numerator: Vast {
            high: Magnitude { high: 0, low: 0 },
            low: Magnitude {
                high: 170141183460469231731687303715884105727,
                low: 340282366920938463463374607431768211454,
            },
        },
        denominator: Magnitude {
            high: 170141183460469231731687303715884105727,
            low: 340282366920938463463374607431768211455,
        },
        whole: 0,
        rest: Magnitude {
            high: 170141183460469231731687303715884105727,
            low: 340282366920938463463374607431768211454,
        },
        nearest: 1,
    },
    // just below a half
    Row {
        numerator: Vast {
            high: Magnitude { high: 0, low: 0 },
            low: Magnitude {
                high: 85070591730234615865843651857942052863,
                low: 340282366920938463463374607431768211455,
            },
        },
        denominator: Magnitude {
            high: 170141183460469231731687303715884105727,
            low: 340282366920938463463374607431768211455,
        },
        whole: 0,
        rest: Magnitude {
            high: 85070591730234615865843651857942052863,
            low: 340282366920938463463374607431768211455,
        },
        nearest: 0,
    },
    // a half over a long denominator, even
    Row {
        numerator: Vast {
            high: Magnitude { high: 0, low: 0 },
            low: Magnitude {
                high: 260120595944318280471387226104,
                low: 174612382935919094268561258664665374019,
            },
        },
        denominator: Magnitude {
            high: 21069768461,
            low: 40050175138474829315101583520451822990,
        },
        whole: 12345678901234567890,
        rest: Magnitude {
            high: 10534884230,
            low: 190166271029706646389238095476110017223,
        },
        nearest: 12345678901234567890,
    },
    // odd
    Row {
        numerator: Vast {
            high: Magnitude { high: 0, low: 0 },
            low: Magnitude {
                high: 260120595944318280492456994565,
                low: 214662558074393923583662842185117197009,
            },
        },
        denominator: Magnitude {
            high: 21069768461,
            low: 40050175138474829315101583520451822990,
        },
        whole: 12345678901234567891,
        rest: Magnitude {
            high: 10534884230,
            low: 190166271029706646389238095476110017223,
        },
        nearest: 12345678901234567892,
    },
    // any
    Row {
        numerator: Vast {
            high: Magnitude {
                high: 0,
                low: 162819733,
            },
            low: Magnitude {
                high: 222113674787845607228452155022989543194,
                low: 10434218819985353493965595616730729232,
            },
        },
        denominator: Magnitude {
            high: 25087616007,
            low: 292340881153201136321456041997406986310,
        },
        whole: 2208447559602015169447263106977572359,
        rest: Magnitude {
            high: 5494972968,
            low: 102338587122005377789545278575003813158,
        },
        nearest: 2208447559602015169447263106977572359,
    },
    // any
    Row {
        numerator: Vast {
            high: Magnitude {
                high: 0,
                low: 10590022423,
            },
            low: Magnitude {
                high: 81746083624347127305451238994316964071,
                low: 107373577619468185409600499886219903146,
            },
        },
        denominator: Magnitude {
            high: 33162702038,
            low: 204078752452420368616064762734343691136,
        },
        whole: 108664182180679650323137937602591633546,
        rest: Magnitude {
            high: 4968118063,
            low: 147308583215305092298530578540118142378,
        },
        nearest: 108664182180679650323137937602591633546,
    },
    // any
    Row {
        numerator: Vast {
            high: Magnitude {
                high: 0,
                low: 6382431601,
            },
            low: Magnitude {
                high: 313551797172875803715430639204054982441,
                low: 307973156977796927234397223503402774385,
            },
        },
        denominator: Magnitude {
            high: 21994676425,
            low: 293721721897543439742357757512103551654,
        },
        whole: 98743390907947586536637460922996905193,
        rest: Magnitude {
            high: 21074565145,
            low: 39591331304155975727440023808030109275,
        },
        nearest: 98743390907947586536637460922996905194,
    },
    // any
    Row {
        numerator: Vast {
            high: Magnitude {
                high: 0,
                low: 1768685736,
            },
            low: Magnitude {
                high: 243134259433729234740046885585413935548,
                low: 230329248580070356013313033168147729607,
            },
        },
        denominator: Magnitude {
            high: 30804903720,
            low: 148511851613136292729687699982802808261,
        },
        whole: 19537557211361719021716967887277494087,
        rest: Magnitude {
            high: 24953845631,
            low: 680497287024302241947484599423619108,
        },
        nearest: 19537557211361719021716967887277494088,
    },
];

#[test]
fn quotients(rt: HostRuntime) {
    for row in &ROWS {
        let (whole, rest) = divide(&row.numerator, &row.denominator);
        assert!(rt; whole == row.whole);
        assert!(rt; rest == row.rest);
        assert!(rt; nearest(&row.numerator, &row.denominator) == row.nearest);
    }
}

// A numerator, a factor, a denominator, and the nearest whole number.
struct Multiple {
    numerator: Vast,
    factor: u64,
    denominator: Magnitude,
    want: u128,
}

const MULTIPLES: [Multiple; 4] = [
    // a third in 17 places
    Multiple {
        numerator: Vast {
            high: Magnitude { high: 0, low: 0 },
            low: Magnitude { high: 0, low: 1 },
        },
        factor: 100000000000000000,
        denominator: Magnitude { high: 0, low: 3 },
        want: 33333333333333333,
    },
    // long numbers
    Multiple {
        numerator: Vast {
            high: Magnitude { high: 0, low: 0 },
            low: Magnitude {
                high: 10141204801825835211973625643007,
                low: 340282366920938463463374607431768211455,
            },
        },
        factor: 100000000000000000,
        denominator: Magnitude {
            high: 34359738367,
            low: 340282366920938463463374607431768211455,
        },
        want: 29514790517935282585600000000000000000,
    },
    // the greatest decimal
    Multiple {
        numerator: Vast {
            high: Magnitude { high: 0, low: 0 },
            low: Magnitude {
                high: 34359738367999999999999999999999,
                low: 340282366920938462463374607431768211455,
            },
        },
        factor: 100000000000000000,
        denominator: Magnitude {
            high: 34359738367,
            low: 340282366920938463463374607431768211455,
        },
        want: 100000000000000000000000000000000000000,
    },
    // nothing
    Multiple {
        numerator: Vast {
            high: Magnitude { high: 0, low: 0 },
            low: Magnitude { high: 0, low: 0 },
        },
        factor: 100000000000000000,
        denominator: Magnitude {
            high: 34359738367,
            low: 340282366920938463463374607431768211455,
        },
        want: 0,
    },
];

#[test]
fn multiples(rt: HostRuntime) {
    for row in &MULTIPLES {
        let found = nearest_multiple(&row.numerator, row.factor, &row.denominator);
        assert!(rt; found == row.want);
    }
}

// A floor, a remainder, a weight, an offset, a step, and the numerator.
struct Place {
    floor: i32,
    rest: i128,
    weight: i128,
    offset: i128,
    step: u64,
    want: LongNumber,
}

const PLACES: [Place; 6] = [
    // zero
    Place {
        floor: 0,
        rest: 0,
        weight: 1,
        offset: 0,
        step: 1,
        want: LongNumber {
            negative: false,
            size: Vast {
                high: Magnitude { high: 0, low: 0 },
                low: Magnitude { high: 0, low: 0 },
            },
        },
    },
    // below zero
    Place {
        floor: -3,
        rest: 1,
        weight: 4,
        offset: 2,
        step: 5,
        want: LongNumber {
            negative: true,
            size: Vast {
                high: Magnitude { high: 0, low: 0 },
                low: Magnitude { high: 0, low: 15 },
            },
        },
    },
    // the least
    Place {
        floor: -2147483648,
        rest: 0,
        weight: 7975367974687734572669798827746656250,
        offset: -170141183460469231731687303715884105728,
        step: 18446744073709551615,
        want: LongNumber {
            negative: true,
            size: Vast {
                high: Magnitude {
                    high: 0,
                    low: 216172782113193983,
                },
                low: Magnitude {
                    high: 336294865476209484016194793253361420547,
                    low: 46730434042283404565415872409108480,
                },
            },
        },
    },
    // the greatest
    Place {
        floor: 2147483647,
        rest: 7975367974687734572669798827746656249,
        weight: 7975367974687734572669798827746656250,
        offset: 170141183460469231731687303715884105727,
        step: 18446744073709551615,
        want: LongNumber {
            negative: false,
            size: Vast {
                high: Magnitude {
                    high: 0,
                    low: 216172782113193983,
                },
                low: Magnitude {
                    high: 336294865476209484015762447689135032579,
                    low: 8021733325357152339401304018180374523,
                },
            },
        },
    },
    // just below one
    Place {
        floor: -1,
        rest: 7975367974687734572669798827746656249,
        weight: 7975367974687734572669798827746656250,
        offset: 1,
        step: 1099511627775,
        want: LongNumber {
            negative: false,
            size: Vast {
                high: Magnitude { high: 0, low: 0 },
                low: Magnitude {
                    high: 25769803775,
                    low: 308380895022144003843189337147538669575,
                },
            },
        },
    },
    // just below zero
    Place {
        floor: 5,
        rest: 7,
        weight: 9,
        offset: -6,
        step: 1,
        want: LongNumber {
            negative: true,
            size: Vast {
                high: Magnitude { high: 0, low: 0 },
                low: Magnitude { high: 0, low: 2 },
            },
        },
    },
];

#[test]
fn numerators(rt: HostRuntime) {
    for row in &PLACES {
        let found = long_numerator(row.floor, row.rest, row.weight, row.offset, row.step);
        assert!(rt; found.negative == row.want.negative);
        assert!(rt; found.size.high == row.want.size.high);
        assert!(rt; found.size.low == row.want.size.low);
    }
}
