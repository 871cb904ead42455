// The chord in which the plane of one triangle cuts another, and what it shows about the two.
ghost use Rattle.std.specs.Prelude.{◌≡◌, ◌^◌, All, IsNone, IfSome};
ghost use Rattle.std.specs.List.{list_any};
ghost use Rattle.ember_algebra.specs.Size.{Small};
ghost use Rattle.ember_pairs.specs.declared.chords.CornerName.{CornerName};
ghost use Rattle.ember_pairs.specs.declared.chords.LoneCorner.{LoneCorner};
ghost use Rattle.ember_pairs.specs.Heights.{AreSmall};
ghost use Rattle.ember_pairs.specs.Chords.{turned, opposite_heights, IsFirstAlone, IsLone, chord_heights};
ghost use Rattle.ember_pairs.specs.Chords.{end_height, is_beyond, is_first_behind, is_second_behind, is_middle_within};
ghost use Rattle.ember_pairs.specs.Chords.{is_edge, is_within, IsByChord};

use crate::by_edges::ByEdges;
use ember_width::Heights;

/// The name of a triangle's corner.
#[derive(Clone, Copy)]
pub enum CornerName {
    A,
    B,
    C,
}

/// The corner of a triangle that alone lies strictly on one side of a plane. `over` are the heights
/// of all corners, this one first, over the plane with its front turned to this corner.
#[derive(Clone, Copy)]
pub struct LoneCorner {
    pub name: CornerName,
    pub over: Heights,
}

/// The heights of a chord's ends and middle over a plane, each times a positive number.
#[derive(Clone, Copy)]
pub struct ChordHeights {
    pub first: i128,
    pub second: i128,
    pub middle: i128,
}

// The same heights, but that of this corner first.
fn turned(h: &Heights, name: CornerName) -> Heights
    requires { AreSmall h.now }
    ensures value { result ≡ turned name h.now }
    ensures small { AreSmall result }
{
    match name {
        CornerName::A => *h,
        CornerName::B => Heights {
            a: h.b,
            b: h.c,
            c: h.a,
        },
        CornerName::C => Heights {
            a: h.c,
            b: h.a,
            c: h.b,
        },
    }
}

// The heights over the plane with the opposite front.
fn opposite_heights(h: &Heights) -> Heights
    requires { AreSmall h.now }
    ensures value { result ≡ opposite_heights h.now }
    ensures small { AreSmall result }
{
    Heights {
        a: -h.a,
        b: -h.b,
        c: -h.c,
    }
}

// The corner in front of the plane, if there is only one.
fn alone_in_front(h: &Heights) -> Option<CornerName>
    ensures found { IfSome result (λ name. IsFirstAlone (turned name h.now)) }
    ensures none { IsNone result → (name : CornerName) → IsFirstAlone (turned name h.now) → ⊥ }
{
    match (h.a > 0, h.b > 0, h.c > 0) {
        (true, false, false) => Some(CornerName::A),
        (false, true, false) => Some(CornerName::B),
        (false, false, true) => Some(CornerName::C),
        _ => None,
    }
}

// The corner that alone lies strictly on one side of the plane, if there is one.
fn lone_corner(h: &Heights) -> Option<LoneCorner>
    requires { AreSmall h.now }
    ensures found { IfSome result (IsLone h.now) }
    ensures none { IsNone result → (lone : LoneCorner) → IsLone h.now lone → ⊥ }
    ensures small { IfSome result (λ lone. AreSmall lone.over) }
{
    if let Some(name) = alone_in_front(h) {
        let over = turned(h, name);
        return Some(LoneCorner { name, over });
    }
    let behind = opposite_heights(h);
    match alone_in_front(&behind) {
        None => None,
        Some(name) => {
            let over = turned(&behind, name);
            Some(LoneCorner { name, over })
        }
    }
}

// The height of an end of the chord over an edge plane, times a positive number. The end lies on the
// edge from the lone corner to another one: `lone` and `next` are the heights of these two corners
// over the plane that cuts, `from` and `to` those over the edge plane.
fn end_height(lone: i64, next: i64, from: i64, to: i64) -> i128
    requires lone { Small (2 ^ 40) lone }
    requires next { Small (2 ^ 40) next }
    requires from { Small (2 ^ 40) from }
    requires to { Small (2 ^ 40) to }
    ensures value { result ≡ end_height lone next from to }
    ensures small { Small (2 ^ 81) result }
{
    lone as i128 * to as i128 - next as i128 * from as i128
}

// The heights of the chord over an edge plane. `edge` are those of the corners.
fn chord_heights(lone: &LoneCorner, edge: &Heights) -> ChordHeights
    requires lone { AreSmall lone.now.over }
    requires edge { AreSmall edge.now }
    ensures { result ≡ chord_heights lone.now edge.now }
{
    let over = lone.over;
    let from = turned(edge, lone.name);
    let first = end_height(over.a, over.b, from.a, from.b);
    let second = end_height(over.a, over.c, from.a, from.c);
    ChordHeights {
        first,
        second,
        middle: first + second,
    }
}

impl ChordHeights {
    // Whether no end of the chord is behind the plane, and not both are on it.
    fn is_beyond(&self) -> bool
        ensures { result ≡ is_beyond self.now }
    {
        self.first >= 0 && self.second >= 0 && !(self.first == 0 && self.second == 0)
    }
}

// Whether the chord lies beyond one of several planes. `chord` are its heights over them.
fn is_beyond_some(chord: &[ChordHeights]) -> bool
    ensures { result ≡ list_any is_beyond chord.now }
{
    chord.iter().any(|over| over.is_beyond())
}

// Whether the first end of the chord is behind all of them.
fn is_first_behind(chord: &[ChordHeights]) -> bool
    ensures { result ≡ is_first_behind chord.now }
{
    chord.iter().all(|over| over.first < 0)
}

// Whether the second end is behind all of them.
fn is_second_behind(chord: &[ChordHeights]) -> bool
    ensures { result ≡ is_second_behind chord.now }
{
    chord.iter().all(|over| over.second < 0)
}

// Whether the middle of the chord is in front of none of them.
fn is_middle_within(chord: &[ChordHeights]) -> bool
    ensures { result ≡ is_middle_within chord.now }
{
    chord.iter().all(|over| over.middle <= 0)
}

// Whether the two other corners are on the plane that cuts. Then the chord is an edge.
fn is_edge(lone: &LoneCorner) -> bool
    ensures { result ≡ is_edge lone.now }
{
    lone.over.b == 0 && lone.over.c == 0
}

// Whether an end of the chord is behind all of them, or its middle is in front of none and the chord
// isn't an edge.
fn is_within(lone: &LoneCorner, chord: &[ChordHeights]) -> bool
    ensures { result ≡ is_within lone.now chord.now }
{
    is_first_behind(chord) || (is_second_behind(chord) || !is_edge(lone) && is_middle_within(chord))
}

/// What the chord in which the plane of one triangle cuts another shows about the two. `over` are
/// the heights of the other's corners over this plane, and `edges` those over the edge planes of the
/// first.
pub fn shown_by_chord(over: &Heights, edges: &[Heights; 3]) -> ByEdges
    requires over { AreSmall over.now }
    requires edges { All AreSmall edges.now }
    ensures { IsByChord over.now edges.now result }
{
    let Some(lone) = lone_corner(over) else {
        return ByEdges::Unknown;
    };
    let [first, second, third] = edges;
    let chord = [
        chord_heights(&lone, first),
        chord_heights(&lone, second),
        chord_heights(&lone, third),
    ];
    if is_beyond_some(&chord) {
        return ByEdges::Apart;
    }
    if is_within(&lone, &chord) {
        return ByEdges::Met;
    }
    ByEdges::Unknown
}
