// Numbers for the ends of segments.
ghost use Rattle.std.specs.Prelude.{◌≡◌};
ghost use Rattle.mesh_certificate.specs.Certificate.Keys.{start_key, end_key, segment_key, start_in, end_in, edge_key, reverse_key};
ghost use Rattle.mesh_certificate.specs.Certificate.OnLines.{run_key, run_back_key};

use crate::certificate::segment::Segment;

/// The key of the segment's start, on its line of its plane.
pub fn start_key(s: &Segment) -> u128
    ensures { result ≡ start_key s.now }
{
    (s.plane as u128 * 4_294_967_296 + s.line as u128) * 4_294_967_296 + s.start as u128
}

/// The key of the segment's end, on its line of its plane.
pub fn end_key(s: &Segment) -> u128
    ensures { result ≡ end_key s.now }
{
    (s.plane as u128 * 4_294_967_296 + s.line as u128) * 4_294_967_296 + s.end as u128
}

/// The key of the whole segment.
pub fn segment_key(s: &Segment) -> u128
    ensures { result ≡ segment_key s.now }
{
    start_key(s) * 4_294_967_296 + s.end as u128
}

/// The key of the start of the segment with this key.
pub fn start_in(key: u128) -> u128
    ensures { result ≡ start_in key }
{
    key / 4_294_967_296
}

/// The key of the end of the segment with this key.
pub fn end_in(key: u128) -> u128
    ensures { result ≡ end_in key }
{
    key / 18_446_744_073_709_551_616 * 4_294_967_296 + key % 4_294_967_296
}

/// The key of the segment's start and end.
pub fn edge_key(s: &Segment) -> u64
    ensures { result ≡ edge_key s.now }
{
    s.start as u64 * 4_294_967_296 + s.end as u64
}

/// The key of the segment's end and start.
pub fn reverse_key(s: &Segment) -> u64
    ensures { result ≡ reverse_key s.now }
{
    s.end as u64 * 4_294_967_296 + s.start as u64
}

/// The key of the segment's start and end in its plane.
pub fn run_key(s: &Segment) -> u128
    ensures { result ≡ run_key s.now }
{
    (s.plane as u128 * 4_294_967_296 + s.start as u128) * 4_294_967_296 + s.end as u128
}

/// The key of the segment's end and start in its plane.
pub fn run_back_key(s: &Segment) -> u128
    ensures { result ≡ run_back_key s.now }
{
    (s.plane as u128 * 4_294_967_296 + s.end as u128) * 4_294_967_296 + s.start as u128
}
