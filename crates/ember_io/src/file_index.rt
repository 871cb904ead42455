// Files of a list by their indices.
ghost use Rattle.std.specs.Prelude.{◌≡◌, ◌<◌, ◌≤◌, [], ◌++◌, ◌+◌, ◌-◌, min, length, drop, take, Some, None, MatchOption};
ghost use Rattle.ember_io.specs.Files.{named, first_of, first_or_empty, bytes_at};

/// The index of the first file of that name. None if no file has it.
pub fn file_index_of(files: &[(String, Vec<u8>)], name: &str) -> Option<usize>
    ensures { MatchOption result (first_of (named files.now) name.now ≡ None) (λ i.
        first_of (named files.now) name.now ≡ Some (bytes_at (named files.now) i)) }
{
    for (i, file) in files.iter().enumerate() {
        if file.0.as_str() == name {
            return Some(i);
        }
    }
    None
}

/// The index of the first file of that name. If no file has it, the index past the last.
#[tactic(auto, using(crate::proofs::FileIndices::named_past))]
pub fn file_index_or_end(files: &[(String, Vec<u8>)], name: &str) -> usize
    ensures { Some (bytes_at (named files.now) result) ≡ first_or_empty (named files.now) name.now }
{
    match file_index_of(files, name) {
        Some(file_index) => file_index,
        None => files.len(),
    }
}

/// The index past the last file, at which there are no bytes.
#[tactic(auto, using(crate::proofs::FileIndices::named_past))]
pub fn past_files(files: &[(String, Vec<u8>)]) -> usize
    ensures { bytes_at (named files.now) result ≡ [] }
{
    files.len()
}

/// The bytes of the file at an index. Empty if the index is past the last file.
pub fn bytes_of(files: &[(String, Vec<u8>)], file_index: usize) -> &[u8]
    ensures { result.now ≡ bytes_at (named files.now) file_index }
{
    match files.get(file_index) {
        Some(file) => file.1.as_slice(),
        None => &[],
    }
}

/// Copies the bytes from the index `at` on to the front of `buf`, at most `piece` of them, and
/// returns how many. Returns 0 only if no byte is left or `buf` is empty.
pub fn give(bytes: &[u8], at: usize, piece: usize, buf: &mut [u8]) -> usize
    requires { 0 < piece }
    ensures bound { result ≤ length buf.new }
    ensures same_length { length buf.new ≡ length buf.old }
    ensures count { result ≡ min piece (min (length buf.old) (length (drop at bytes.now))) }
    ensures bytes { drop at bytes.now ≡ take result buf.new ++ drop (at + result) bytes.now }
    ensures end { result ≡ 0 → 0 < length buf.new → drop (at + result) bytes.now ≡ [] }
{
    let left = if at < bytes.len() {
        bytes.split_at(at).1
    } else {
        &[]
    };
    let count = piece.min(buf.len().min(left.len()));
    buf[..count].copy_from_slice(left.split_at(count).0);
    count
}
