// Which way points turn. What is expected was computed with exact fractions, outside of this program.
use ember_algebra::Sign;
use mesh_point::{PlanePoint, turn};

const ORIGIN: PlanePoint = PlanePoint {
    floor_x: 0,
    floor_y: 0,
    x: 0,
    y: 0,
    w: 1,
};

const RIGHT: PlanePoint = PlanePoint {
    floor_x: 5,
    floor_y: 0,
    x: 0,
    y: 0,
    w: 1,
};

const UP: PlanePoint = PlanePoint {
    floor_x: 0,
    floor_y: 7,
    x: 3,
    y: 2,
    w: 5,
};

const LEAST: PlanePoint = PlanePoint {
    floor_x: -2147483648,
    floor_y: -2147483648,
    x: 0,
    y: 0,
    w: 1,
};

const RIGHTMOST: PlanePoint = PlanePoint {
    floor_x: 2147483647,
    floor_y: -2147483648,
    x: 0,
    y: 0,
    w: 1,
};

const TOPMOST: PlanePoint = PlanePoint {
    floor_x: -2147483648,
    floor_y: 2147483647,
    x: 0,
    y: 0,
    w: 1,
};

const BELOW_LEFT: PlanePoint = PlanePoint {
    floor_x: -3,
    floor_y: -3,
    x: 0,
    y: 0,
    w: 1,
};

const ABOVE_RIGHT: PlanePoint = PlanePoint {
    floor_x: 4,
    floor_y: 4,
    x: 0,
    y: 0,
    w: 1,
};

const THIRD: PlanePoint = PlanePoint {
    floor_x: 0,
    floor_y: 0,
    x: 1,
    y: 1,
    w: 3,
};

const ONE: PlanePoint = PlanePoint {
    floor_x: 1,
    floor_y: 1,
    x: 0,
    y: 0,
    w: 1,
};

const LOWER_THIRD: PlanePoint = PlanePoint {
    floor_x: 0,
    floor_y: 0,
    x: 2,
    y: 1,
    w: 3,
};

const NEARLY_HALF: PlanePoint = PlanePoint {
    floor_x: 0,
    floor_y: 0,
    x: 500000,
    y: 500001,
    w: 1000003,
};

const FIRST: PlanePoint = PlanePoint {
    floor_x: -446302,
    floor_y: -422945,
    x: 567732333160471671,
    y: 3146209407191990,
    w: 2245735862420026425,
};

const MIDDLE: PlanePoint = PlanePoint {
    floor_x: -441690,
    floor_y: -312217,
    x: 667096799016046606135442134259647257,
    y: 2443273187665701540596357218568720830,
    w: 3611417244780561977398121180053216575,
};

const SECOND: PlanePoint = PlanePoint {
    floor_x: -437078,
    floor_y: -201488,
    x: 187560233801483433,
    y: 565547205814473531,
    w: 1608121999213595959,
};

const ABOVE_MIDDLE: PlanePoint = PlanePoint {
    floor_x: -441690,
    floor_y: -312217,
    x: 667096799016046606135442134259647257,
    y: 2443273187665701540596357218568720831,
    w: 3611417244780561977398121180053216575,
};

const BELOW_MIDDLE: PlanePoint = PlanePoint {
    floor_x: -441690,
    floor_y: -312217,
    x: 667096799016046606135442134259647257,
    y: 2443273187665701540596357218568720829,
    w: 3611417244780561977398121180053216575,
};

const HEAVY_LEAST: PlanePoint = PlanePoint {
    floor_x: -2147483648,
    floor_y: -2147483648,
    x: 7975367974687734572669798827746656249,
    y: 7975367974687734572669798827746656249,
    w: 7975367974687734572669798827746656250,
};

const HEAVY_MIDDLE: PlanePoint = PlanePoint {
    floor_x: 0,
    floor_y: 0,
    x: 7975367974687734572669798827746656249,
    y: 7975367974687734572669798827746656249,
    w: 7975367974687734572669798827746656250,
};

const HEAVY_GREATEST: PlanePoint = PlanePoint {
    floor_x: 2147483647,
    floor_y: 2147483647,
    x: 7975367974687734572669798827746656249,
    y: 7975367974687734572669798827746656249,
    w: 7975367974687734572669798827746656250,
};

const HEAVY_BELOW: PlanePoint = PlanePoint {
    floor_x: 0,
    floor_y: 0,
    x: 7975367974687734572669798827746656249,
    y: 7975367974687734572669798827746656248,
    w: 7975367974687734572669798827746656250,
};

const HEAVY_LEFT: PlanePoint = PlanePoint {
    floor_x: 0,
    floor_y: 0,
    x: 7975367974687734572669798827746656248,
    y: 7975367974687734572669798827746656249,
    w: 7975367974687734572669798827746656250,
};

#[test]
fn turns(rt: HostRuntime) {
    let rows: [(PlanePoint, PlanePoint, PlanePoint, Sign); 13] = [
        // a step of the floors decides
        (ORIGIN, RIGHT, UP, Sign::Pos),
        // the other way round
        (RIGHT, ORIGIN, UP, Sign::Neg),
        // as far apart as floors can be
        (LEAST, RIGHTMOST, TOPMOST, Sign::Pos),
        // floors on one line
        (BELOW_LEFT, ORIGIN, ABOVE_RIGHT, Sign::Zero),
        // one line in thirds
        (ORIGIN, THIRD, ONE, Sign::Zero),
        // below the line
        (ORIGIN, LOWER_THIRD, ONE, Sign::Pos),
        // thin, in 128 bits
        (ORIGIN, NEARLY_HALF, ONE, Sign::Neg),
        // the middle of two points
        (FIRST, MIDDLE, SECOND, Sign::Zero),
        // one part above it
        (FIRST, ABOVE_MIDDLE, SECOND, Sign::Neg),
        // one part below it
        (FIRST, BELOW_MIDDLE, SECOND, Sign::Pos),
        // on one line at the greatest weight
        (HEAVY_LEAST, HEAVY_MIDDLE, HEAVY_GREATEST, Sign::Zero),
        // one part to the right
        (HEAVY_LEAST, HEAVY_BELOW, HEAVY_GREATEST, Sign::Pos),
        // one part to the left
        (HEAVY_LEAST, HEAVY_LEFT, HEAVY_GREATEST, Sign::Neg),
    ];
    for (p, q, r, want) in rows {
        assert!(rt; turn(&p, &q, &r) == want);
    }
}
