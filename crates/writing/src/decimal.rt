// Numbers in decimal.
ghost use Rattle.std.specs.Prelude.{◌≡◌, ◌+◌, ◌≤◌, ◌<◌, length};
ghost use Rattle.ground.specs.Paper.Runs.{over};
ghost use Rattle.writing.specs.Paper.Written.{decimal, number_lines};

// A number in decimal: its last digit behind those of the rest.
pub fn decimal_out(out: &mut [u8], at: usize, n: u64) -> usize
    requires { at + length (decimal n) ≤ length out.old }
    ensures next { result ≡ at + length (decimal n) }
    ensures out { out.new ≡ over out.old at (decimal n) (at + length (decimal n)) }
{
    if n < 10 {
        out[at] = b'0' + n as u8;
        return at + 1;
    }
    let last = decimal_out(out, at, n / 10);
    out[last] = b'0' + (n % 10) as u8;
    last + 1
}

// Each number on a line.
pub fn numbers_out(out: &mut [u8], at: usize, numbers: &[u32]) -> usize
    requires { at + length (number_lines numbers.now) ≤ length out.old }
    ensures next { result ≡ at + length (number_lines numbers.now) }
    ensures out { out.new ≡ over out.old at (number_lines numbers.now) (at + length (number_lines numbers.now)) }
{
    let mut p = at;
    for n in numbers {
        p = decimal_out(out, p, u64::from(*n));
        out[p] = b'\n';
        p += 1;
    }
    p
}
