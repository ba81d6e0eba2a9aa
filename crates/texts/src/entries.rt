// How many entries a directory has, and those no longer used cleared.
ghost use Rattle.std.specs.Prelude.{◌≡◌, ◌+◌, ◌-◌, ◌≤◌, length};
ghost use Rattle.ground.specs.Paper.Rows.{zeros};
ghost use Rattle.ground.specs.Paper.Runs.{over};
ghost use Rattle.texts.specs.Paper.Directory.{entries};

// How many entries n characters have.
pub fn entries_for(n: u32) -> usize
    ensures { result ≡ entries n }
{
    (n as usize).div_ceil(32)
}

// The entries from `from` up to `to` are cleared, if there are any.
pub fn clear_entries(dir: &mut [u32], from: usize, to: usize)
    requires { to ≤ length dir.old }
    ensures { dir.new ≡ over dir.old from (zeros (to - from)) (from + (to - from)) }
{
    if from < to {
        dir[from..to].fill(0);
    }
}
