// The counts that are ranked.
ghost use Rattle.std.specs.Prelude.{◌≡◌, length};
ghost use Rattle.ground.specs.Paper.Rows.{tab};
ghost use Rattle.choosing.specs.Paper.Choosing.{counted};

// What each byte counts as: its count, and of the ten digits, `+` and byte 10 at least 1. Ranking and totals read it many times.
pub fn raised_of(counts: &[u32]) -> [u32; 256]
    requires { length counts.now ≡ 256 }
    ensures { result ≡ tab (counted counts.now) 0 256 }
{
    let mut raised = [0; 256];
    raised.copy_from_slice(counts);
    for b in b"\n+0123456789" {
        let b = usize::from(*b);
        if raised[b] == 0 {
            raised[b] = 1;
        }
    }
    raised
}
