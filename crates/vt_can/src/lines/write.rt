//! Writing of frames and frame lines.

ghost use Rattle.std.specs.Prelude.{◌≡◌, ◌<◌, ◌≤◌, ◌+◌, ◌*◌, ◌^◌, ◌++◌, length};
ghost use Rattle.std.specs.Fmt.{decimal};
ghost use Rattle.arrayvec.specs.ArrayVec.{array_vec_len};
ghost use Rattle.hex.specs.Hex.{encode_upper};
ghost use Rattle.vt_can.specs.lines.WrittenForms.{frame_text, lowest_digits, line_text};

use crate::frames::Frame;
use arrayvec::ArrayVec;

/// The text of a frame, `ID#DATA` in upper case hex digits: 9 to 25 bytes.
pub fn write_frame(frame: &Frame) -> ArrayVec<u8, 25>
    ensures { result.items ≡ frame_text frame.now }
{
    let mut text = ArrayVec::new();
    push_digits(&mut text, &frame.id.raw().to_be_bytes());
    text.push(b'#');
    push_digits(&mut text, frame.bytes.as_slice());
    text
}

/// The line of a frame at a time in microseconds, `(S.FFFFFF) can0 ID#DATA`: 25 to 52 bytes.
pub fn write_line(time: u64, frame: &Frame) -> ArrayVec<u8, 52>
    requires { time < 10 ^ 18 }
    ensures { result.items ≡ line_text time frame.now }
{
    let mut text = ArrayVec::new();
    text.push(b'(');
    push_decimal(&mut text, time / 1_000_000);
    text.push(b'.');
    push_lowest(&mut text, 6, time);
    push_all(&mut text, b") can0 ");
    push_all(&mut text, write_frame(frame).as_slice());
    text
}

// Appends two upper case hex digits for each of up to eight bytes.
fn push_digits(text: &mut ArrayVec<u8, 25>, bytes: &[u8])
    requires few { length bytes.now ≤ 8 }
    requires spare { array_vec_len text.old + 2 * length bytes.now ≤ 25 }
    ensures written { text.new.items ≡ text.old.items ++ encode_upper bytes.now }
    ensures counted { array_vec_len text.new ≡ array_vec_len text.old + 2 * length bytes.now }
{
    let mut buffer = [0u8; 16];
    let digits = &mut buffer[..2 * bytes.len()];
    // The buffer has exactly the length of the digits, so this does not fail.
    let _ = hex::encode_to_slice(bytes, digits);
    for digit in &*digits {
        text.push(digit.to_ascii_uppercase());
    }
}

// Appends bytes within the spare capacity.
fn push_all(text: &mut ArrayVec<u8, 52>, bytes: &[u8])
    requires { array_vec_len text.old + length bytes.now ≤ 52 }
    ensures written { text.new.items ≡ text.old.items ++ bytes.now }
    ensures counted { array_vec_len text.new ≡ array_vec_len text.old + length bytes.now }
{
    for byte in bytes {
        text.push(*byte);
    }
}

// Appends a number in decimal.
fn push_decimal(text: &mut ArrayVec<u8, 52>, n: u64)
    requires { array_vec_len text.old + length (decimal n) ≤ 52 }
    ensures written { text.new.items ≡ text.old.items ++ decimal n }
    ensures counted { array_vec_len text.new ≡ array_vec_len text.old + length (decimal n) }
{
    if n >= 10 {
        push_decimal(text, n / 10);
    }
    text.push(b'0' + (n % 10) as u8);
}

// Appends the `count` lowest decimal digits of a number.
fn push_lowest(text: &mut ArrayVec<u8, 52>, count: usize, n: u64)
    requires { array_vec_len text.old + count ≤ 52 }
    ensures written { text.new.items ≡ text.old.items ++ lowest_digits count n }
    ensures counted { array_vec_len text.new ≡ array_vec_len text.old + count }
{
    if count > 0 {
        push_lowest(text, count - 1, n / 10);
        text.push(b'0' + (n % 10) as u8);
    }
}
