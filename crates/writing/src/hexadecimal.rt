// Bytes in hexadecimal.
ghost use Rattle.std.specs.Prelude.{◌≡◌, ◌+◌, ◌≤◌, ◌<◌, length};
ghost use Rattle.ground.specs.Paper.Runs.{over};
ghost use Rattle.writing.specs.Paper.Written.{glyph, hex_of, hex_row, hex_lines};

// A hexadecimal digit.
fn glyph_of(d: u8) -> u8
    requires { d < 16 }
    ensures { result ≡ glyph d }
{
    if d < 10 { b'0' + d } else { b'a' + (d - 10) }
}

// A byte in hexadecimal.
pub fn byte_out(out: &mut [u8], at: usize, b: u8) -> usize
    requires { at + 2 ≤ length out.old }
    ensures next { result ≡ at + 2 }
    ensures out { out.new ≡ over out.old at (hex_of b) (at + 2) }
{
    out[at] = glyph_of(b / 16);
    out[at + 1] = glyph_of(b % 16);
    at + 2
}

// Bytes in hexadecimal, on no line.
pub fn row_out(out: &mut [u8], at: usize, bytes: &[u8]) -> usize
    requires { at + length (hex_row bytes.now) ≤ length out.old }
    ensures next { result ≡ at + length (hex_row bytes.now) }
    ensures out { out.new ≡ over out.old at (hex_row bytes.now) (at + length (hex_row bytes.now)) }
{
    let mut p = at;
    for b in bytes {
        p = byte_out(out, p, *b);
    }
    p
}

// Bytes in hexadecimal, 32 a line.
pub fn hex_out(out: &mut [u8], at: usize, bytes: &[u8]) -> usize
    requires { at + length (hex_lines bytes.now) ≤ length out.old }
    ensures next { result ≡ at + length (hex_lines bytes.now) }
    ensures out { out.new ≡ over out.old at (hex_lines bytes.now) (at + length (hex_lines bytes.now)) }
{
    let mut p = at;
    for line in bytes.chunks(32) {
        p = row_out(out, p, line);
        out[p] = b'\n';
        p += 1;
    }
    p
}
