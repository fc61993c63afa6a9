// What is printed, into a lent buffer of which the first `filled` bytes wait to be written: numbers in decimal, words as 16 hex digits, lines.
// Each function answers how many bytes wait after it.
#![tactic(auto)]

ghost use Rattle.std.specs.Prelude.{◌≡◌, [], ◌∷◌, ◌+◌, ◌*◌, ◌≤◌, ◌<◌, length};
ghost use Rattle.lineout.specs.Laws.{heading};
ghost use Rattle.lineout.specs.Printed.{decimal, hex_digit, hex_digits, word_text, number_text, printed, variable_line, variable_lines, refusal_line, Puts};

// One byte.
pub fn put_byte(out: &mut [u8], filled: usize, b: u8) -> usize
    requires { filled < length out.old }
    ensures { Puts (b ∷ []) filled out.old out.new result }
{
    out[filled] = b;
    filled + 1
}

// A number below 10 as a digit.
fn digit(n: u64) -> u8
    requires { n < 10 }
    ensures { result ≡ 48 + n }
{
    48 + n as u8
}

// A number in decimal: the digits of a tenth of it, and then its last.
pub fn put_decimal(out: &mut [u8], filled: usize, n: u64) -> usize
    requires { filled + length (decimal n) ≤ length out.old }
    ensures { Puts (decimal n) filled out.old out.new result }
{
    if n < 10 {
        return put_byte(out, filled, digit(n));
    }
    let m = put_decimal(out, filled, n / 10);
    put_byte(out, m, digit(n % 10))
}

// A number below 16 as a lower-case hex digit.
fn hex_digit(d: u64) -> u8
    requires { d < 16 }
    ensures { result ≡ hex_digit d }
{
    if d < 10 {
        return 48 + d as u8;
    }
    87 + d as u8
}

// A word as 16 digits.
fn put_word(out: &mut [u8], filled: usize, w: u64) -> usize
    requires { filled + 16 ≤ length out.old }
    ensures { Puts (hex_digits 16 w) filled out.old out.new result }
{
    let mut at = filled;
    for k in 0..16u64 {
        at = put_byte(out, at, hex_digit((w >> (4 * (15 - k))) % 16));
    }
    at
}

// A word, or a dash for all ones.
fn put_word_or_dash(out: &mut [u8], filled: usize, w: u64) -> usize
    requires { filled + 16 ≤ length out.old }
    ensures { Puts (word_text w) filled out.old out.new result }
{
    if w == u64::MAX {
        return put_byte(out, filled, b'-');
    }
    put_word(out, filled, w)
}

// A number, or a dash for all ones. One function for both, that takes what else to put, would need a longer contract than these two.
fn put_number_or_dash(out: &mut [u8], filled: usize, n: u64) -> usize
    requires { filled + 20 ≤ length out.old }
    ensures { Puts (number_text n) filled out.old out.new result }
{
    if n == u64::MAX {
        return put_byte(out, filled, b'-');
    }
    put_decimal(out, filled, n)
}

// A letter and a space.
fn put_letter(out: &mut [u8], filled: usize, letter: u8) -> usize
    requires { filled + 2 ≤ length out.old }
    ensures { Puts (letter ∷ 32 ∷ []) filled out.old out.new result }
{
    let a = put_byte(out, filled, letter);
    put_byte(out, a, b' ')
}

// A line of a letter and a number, or a dash for all ones.
pub fn put_number(out: &mut [u8], filled: usize, letter: u8, n: u64) -> usize
    requires { filled + 23 ≤ length out.old }
    ensures { Puts (printed letter (number_text n)) filled out.old out.new result }
{
    let a = put_letter(out, filled, letter);
    let b = put_number_or_dash(out, a, n);
    put_byte(out, b, b'\n')
}

// A letter and a number, a space behind each.
fn put_heading(out: &mut [u8], filled: usize, letter: u8, n: u64) -> usize
    requires { filled + 23 ≤ length out.old }
    ensures { Puts (heading letter n) filled out.old out.new result }
{
    let a = put_letter(out, filled, letter);
    let b = put_decimal(out, a, n);
    put_byte(out, b, b' ')
}

// `E`, the number of a line and its refusal.
pub fn put_refusal(out: &mut [u8], filled: usize, line: u64, refusal: u64) -> usize
    requires { filled + 44 ≤ length out.old }
    ensures { Puts (refusal_line line refusal) filled out.old out.new result }
{
    let a = put_heading(out, filled, b'E', line);
    let b = put_decimal(out, a, refusal);
    put_byte(out, b, b'\n')
}

// `V`, the number of a variable and its word, or a dash for all ones.
fn put_variable(out: &mut [u8], filled: usize, i: u64, w: u64) -> usize
    requires { filled + 40 ≤ length out.old }
    ensures { Puts (variable_line i w) filled out.old out.new result }
{
    let a = put_heading(out, filled, b'V', i);
    let b = put_word_or_dash(out, a, w);
    put_byte(out, b, b'\n')
}

// A line for each variable.
pub fn put_variables(out: &mut [u8], filled: usize, answers: &[u64]) -> usize
    requires { filled + 40 * length answers.now ≤ length out.old }
    ensures { Puts (variable_lines 0 answers.now) filled out.old out.new result }
{
    let mut at = filled;
    for (i, w) in answers.iter().enumerate() {
        at = put_variable(out, at, i as u64, *w);
    }
    at
}
