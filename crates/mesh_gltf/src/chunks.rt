// The chunks of a GLB.
ghost use Rattle.std.specs.Prelude.{◌≡◌, ◌+◌, ◌≤◌, length, MatchOption, None, Some, Ok, Err, IfSome, IfOk, IfErr};
ghost use Rattle.std.specs.Option.{option_map};
ghost use Rattle.ember_model.specs.Limits.{most_bytes};
ghost use Rattle.mesh_gltf.specs.Chunks.{is_glb, chunk_at, bytes_of_kind, with_first, chunks_within, glb_chunks, chunks_of, chunks_seen};

use crate::bytes::read_number;
use crate::fault::GltfFault;

// The length of a GLB's header.
const HEADER: usize = 12;

// The length of a chunk's header.
const CHUNK_HEADER: usize = 8;

// The kinds of chunks: `JSON`, and `BIN` with a 0.
const JSON: u32 = 0x4E4F_534A;

const BINARY: u32 = 0x004E_4942;

// The kind of a chunk, and where its bytes are in the file.
#[derive(Clone, Copy)]
pub(crate) struct Chunk {
    pub kind: u32,
    pub start: usize,
    pub end: usize,
}

// The JSON of a document, and the binary chunk after it.
#[derive(Clone, Copy)]
pub(crate) struct Chunks<'a> {
    pub json: &'a [u8],
    pub binary: Option<&'a [u8]>,
}

/// Whether a file is a GLB: it begins with `glTF`.
pub fn is_glb(bytes: &[u8]) -> bool
    ensures { result ≡ is_glb bytes.now }
{
    bytes.starts_with(b"glTF")
}

// The chunk at this byte, if all of it is there.
#[tactic(auto, unfolding(crate::specs::Chunks::chunk_at))]
fn chunk_at(bytes: &[u8], at: usize) -> Option<Chunk>
    requires at { at ≤ most_bytes }
    requires bytes { length bytes.now ≤ most_bytes }
    ensures chunk { result ≡ chunk_at bytes.now at }
    ensures within { IfSome result (λ c. (c.start ≤ c.end) × (c.end ≤ length bytes.now)) }
{
    let start = at + CHUNK_HEADER;
    if start > bytes.len() {
        return None;
    }
    let end = start + read_number(bytes, at) as usize;
    if end > bytes.len() {
        return None;
    }
    let kind = read_number(bytes, at + 4);
    Some(Chunk { kind, start, end })
}

// The bytes of a chunk, if it has this kind.
fn bytes_of_kind<'a>(kind: u32, bytes: &'a [u8], chunk: Chunk) -> Option<&'a [u8]>
    requires { (chunk.start ≤ chunk.end) × (chunk.end ≤ length bytes.now) }
    ensures { option_map (λ b. b.now) result ≡ bytes_of_kind kind bytes.now (Some chunk) }
{
    if chunk.kind != kind {
        return None;
    }
    Some(&bytes[chunk.start..chunk.end])
}

// The binary chunk at this byte, if there is one.
fn binary_at<'a>(bytes: &'a [u8], at: usize) -> Option<&'a [u8]>
    requires at { at ≤ most_bytes }
    requires bytes { length bytes.now ≤ most_bytes }
    ensures { option_map (λ b. b.now) result ≡ bytes_of_kind 5130562 bytes.now (chunk_at bytes.now at) }
{
    bytes_of_kind(BINARY, bytes, chunk_at(bytes, at)?)
}

// The chunks in these bytes of a GLB.
fn chunks_in<'a>(bytes: &'a [u8]) -> Result<Chunks<'a>, GltfFault>
    requires { length bytes.now ≤ most_bytes }
    ensures ok { IfOk result (λ c. with_first bytes.now (chunk_at bytes.now 12) ≡ Ok (chunks_seen c)) }
    ensures fault { IfErr result (λ e. with_first bytes.now (chunk_at bytes.now 12) ≡ Err e) }
{
    let Some(chunk) = chunk_at(bytes, HEADER) else {
        return Err(GltfFault::CutOff);
    };
    let Some(json) = bytes_of_kind(JSON, bytes, chunk) else {
        return Err(GltfFault::NoJson);
    };
    Ok(Chunks {
        json,
        binary: binary_at(bytes, chunk.end),
    })
}

// The chunks of a GLB.
#[tactic(auto, unfolding(crate::specs::Chunks::glb_chunks))]
fn glb_chunks<'a>(bytes: &'a [u8]) -> Result<Chunks<'a>, GltfFault>
    requires { length bytes.now ≤ most_bytes }
    ensures ok { IfOk result (λ c. glb_chunks bytes.now ≡ Ok (chunks_seen c)) }
    ensures fault { IfErr result (λ e. glb_chunks bytes.now ≡ Err e) }
{
    if bytes.len() < HEADER {
        return Err(GltfFault::CutOff);
    }
    let version = read_number(bytes, 4);
    if version != 2 {
        return Err(GltfFault::Version(version));
    }
    let size = read_number(bytes, 8) as usize;
    if bytes.len() < size {
        return Err(GltfFault::CutOff);
    }
    chunks_in(bytes.split_at(size).0)
}

// The chunks of a file; all of it is JSON if it is no GLB.
#[tactic(auto, unfolding(crate::specs::Chunks::chunks_of))]
pub(crate) fn chunks_of<'a>(bytes: &'a [u8]) -> Result<Chunks<'a>, GltfFault>
    requires { length bytes.now ≤ most_bytes }
    ensures ok { IfOk result (λ c. chunks_of bytes.now ≡ Ok (chunks_seen c)) }
    ensures fault { IfErr result (λ e. chunks_of bytes.now ≡ Err e) }
{
    if is_glb(bytes) {
        return glb_chunks(bytes);
    }
    Ok(Chunks {
        json: bytes,
        binary: None,
    })
}
