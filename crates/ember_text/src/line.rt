// Lines of numbers. A line is written from its end to its start, and then appended at once.
ghost use Rattle.std.specs.Prelude.{◌≡◌, ◌+◌, ◌≤◌, [], ◌∷◌, ◌++◌, length, drop, codes, OnOk, OnErr};
ghost use Rattle.std.specs.Fmt.{decimal, signed_decimal};
ghost use Rattle.ember_model.specs.FaceFiles.{line_of};

use ember_model::OutOfMemory;
use itoa::write_digits;

// The longest line: its keyword, eight numbers, each with a space, and the line feed.
const LONGEST: usize = 330;

// Writes the digits of `n` so that they end at `end`, and returns where they start. It takes off
// one digit at a time until the rest fits into 64 bits.
fn write_size(n: u128, line: &mut [u8], end: usize) -> usize
    requires { (39 ≤ end) × (end ≤ length line.old) }
    ensures start { result + length (decimal n) ≡ end }
    ensures written { drop result line.new ≡ decimal n ++ drop end line.old }
{
    let mut left = n;
    let mut at = end;
    while left > u64::MAX as u128 {
        at -= 1;
        line[at] = b'0' + (left % 10) as u8;
        left /= 10;
    }
    write_digits(left as u64, line, at)
}

// Writes the number, with a minus if it is negative, so that it ends at `end`. Returns where it
// starts.
fn write_signed(n: i128, line: &mut [u8], end: usize) -> usize
    requires { (40 ≤ end) × (end ≤ length line.old) }
    ensures start { (result ≤ end) × (end ≤ result + 40) }
    ensures written { drop result line.new ≡ signed_decimal n ++ drop end line.old }
{
    let start = write_size(n.unsigned_abs(), line, end);
    if n >= 0 {
        return start;
    }
    line[start - 1] = b'-';
    start - 1
}

// Writes a space and the number so that they end at `end`. Returns where they start.
fn write_field(n: i128, line: &mut [u8], end: usize) -> usize
    requires { (41 ≤ end) × (end ≤ length line.old) }
    ensures start { (result ≤ end) × (end ≤ result + 41) }
    ensures written { drop result line.new ≡ (codes " " ++ signed_decimal n) ++ drop end line.old }
{
    let start = write_signed(n, line, end);
    line[start - 1] = b' ';
    start - 1
}

/// Appends the line of the keyword and the numbers, eight at most. If memory is short, nothing
/// is appended.
pub fn put_line(keyword: u8, numbers: &[i128], out: &mut Vec<u8>) -> Result<(), OutOfMemory>
    requires { length numbers.now ≤ 8 }
    ensures ok { OnOk result (out.new.items ≡ out.old.items ++ line_of (keyword ∷ []) numbers.now) }
    ensures fault { OnErr result (out.new.items ≡ out.old.items) }
{
    let mut line = [0; LONGEST];
    let mut at = LONGEST - 1;
    line[at] = b'\n';
    let mut left = numbers.len();
    while left > 0 {
        left -= 1;
        at = write_field(numbers[left], &mut line, at);
    }
    at -= 1;
    line[at] = keyword;
    out.extend_from_slice(&line[at..])
}
