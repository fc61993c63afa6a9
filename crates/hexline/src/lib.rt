// Hex lines: the bytes of a line, two lower-case digits a byte, and the numbers that a frame's bytes hold, high byte first.
#![tactic(auto)]

ghost use Rattle.std.specs.Prelude.{◌≡◌, true, is_some, unwrap_or, ◌+◌, ◌*◌, ◌%◌, ◌/◌, ◌^◌, ◌≤◌, ◌<◌, length, drop};
ghost use Rattle.hexline.specs.Hex.{digit, hex_bytes, number_at, numbers_in, bytes_number, is_hex, bytes_of, in_front, Reads};
ghost use Rattle.hexline.specs.Laws.{is_digit, value_of};

// What a digit counts: 0 to 9 or a to f.
fn digit(b: u8) -> Option<u8>
    ensures { (is_some result ≡ is_digit (digit b)) × (unwrap_or result 0 ≡ value_of (digit b)) × (unwrap_or result 0 < 16) }
{
    match b {
        b'0'..=b'9' => Some(b - b'0'),
        b'a'..=b'f' => Some(b - 87),
        _ => None,
    }
}

// What a digit counts; 0 for another byte.
fn value(b: u8) -> u8
    ensures { (result ≡ value_of (digit b)) × (result < 16) }
{
    digit(b).unwrap_or(0)
}

// Whether each byte of a line of whole pairs is a digit.
fn is_hex(line: &[u8]) -> bool
    requires { length line.now % 2 ≡ 0 }
    ensures { result ≡ is_hex (hex_bytes line.now) }
{
    line.iter().all(|b| digit(*b).is_some())
}

// Puts the bytes of a line of hex digits in front.
fn put_bytes(line: &[u8], frame: &mut [u8])
    requires { (is_hex (hex_bytes line.now) ≡ true) × (length line.now ≤ 2 * length frame.old) }
    ensures { frame.new ≡ in_front (bytes_of (hex_bytes line.now)) frame.old }
{
    for k in 0..line.len() / 2 {
        frame[k] = value(line[2 * k]) * 16 + value(line[2 * k + 1]);
    }
}

// The bytes of a line, in front of `frame`, and how many they are: 0 for a line that is empty, odd, not hex or over 512 bytes.
// The contract of a public function (`Reads`) says 0, so it is no Option.
pub fn read_line(line: &[u8], frame: &mut [u8]) -> usize
    requires { length frame.old ≡ 512 }
    ensures { Reads (hex_bytes line.now) frame.old frame.new result }
{
    if 1024 < line.len() {
        return 0;
    }
    if line.len() % 2 == 1 {
        return 0;
    }
    if !is_hex(line) {
        return 0;
    }
    put_bytes(line, frame);
    line.len() / 2
}

// Two bytes from place i on.
pub fn number_at(body: &[u8], i: usize) -> u64
    requires { i + 1 < length body.now }
    ensures { (result ≡ number_at i body.now) × (result < 65536) }
{
    u64::from(u16::from_be_bytes([body[i], body[i + 1]]))
}

// The word in the eight last bytes of eleven.
pub fn word_at_3(body: &[u8]) -> u64
    requires { length body.now ≡ 11 }
    ensures { (result ≡ bytes_number 0 (drop 3 body.now)) × (result < 2 ^ 64) }
{
    u64::from_be_bytes([
        body[3], body[4], body[5], body[6], body[7], body[8], body[9], body[10],
    ])
}

// Puts the numbers of two bytes each in front, and tells how many they are.
pub fn put_numbers(bytes: &[u8], numbers: &mut [u64]) -> usize
    requires { (length bytes.now % 2 ≡ 0) × (length bytes.now ≤ 2 * length numbers.old) }
    ensures { (result ≡ length (numbers_in bytes.now)) × (numbers.new ≡ in_front (numbers_in bytes.now) numbers.old) }
{
    let n = bytes.len() / 2;
    for k in 0..n {
        numbers[k] = number_at(bytes, 2 * k);
    }
    n
}
