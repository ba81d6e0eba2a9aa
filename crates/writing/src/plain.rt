// Bytes put into a lent array from a place on; each function of this crate answers the place after what it put.
ghost use Rattle.std.specs.Prelude.{◌≡◌, ◌+◌, ◌≤◌, ◌<◌, length};
ghost use Rattle.ground.specs.Paper.Runs.{over};

// Bytes as they are.
pub fn text_out(out: &mut [u8], at: usize, text: &[u8]) -> usize
    requires { at + length text.now ≤ length out.old }
    ensures next { result ≡ at + length text.now }
    ensures out { out.new ≡ over out.old at text.now (at + length text.now) }
{
    let end = at + text.len();
    out[at..end].copy_from_slice(text);
    end
}
