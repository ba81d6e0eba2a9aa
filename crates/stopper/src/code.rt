// A code: base symbols of k bits, those below s stoppers. The place of the stopper in a codeword, and its length.
ghost use Rattle.std.specs.Prelude.{◌≡◌, ◌+◌, ◌≤◌, ◌<◌, T};
ghost use Rattle.stopper.specs.Paper.Code.{Within, shorter};
ghost use Rattle.stopper.specs.Paper.Table.{even_code, base, stoppers, good_width, good_code, length_of};
ghost use Rattle.stopper.specs.Helpers.Answers.{place_of};

#[repr(C)]
#[derive(Clone, Copy)]
pub struct Code {
    pub k: u8,
    pub s: u8,
}

// A code that `good_code` accepts.
#[derive(Clone, Copy)]
pub struct GoodCode {
    pub code: Code,
    pub ghost good: { T (good_code code) },
}

// The ranks below sigma of a good code: those that codewords are read by.
#[derive(Clone, Copy)]
pub struct Ranks {
    pub good: GoodCode,
    pub sigma: u32,
    pub ghost few: { sigma ≤ 256 },
}

// No codeword of a rank below 256 has more symbols.
pub const LONGEST: usize = 86;

// The code with the same number of stoppers at every place.
pub fn even_code(k: u8, s: u8) -> Code
    ensures { result ≡ even_code k s }
{
    Code { k, s }
}

// Where the stopper of a codeword stands, and its rank less the number of shorter codewords.
#[derive(Clone, Copy)]
pub struct Place {
    pub at: u32,
    pub q: u32,
}

#[tactic(auto, unfolding(crate::specs::Paper::Table::good_width))]
pub fn good_width(k: u8) -> bool
    ensures { result ≡ good_width k }
{
    k == 2 || k == 4
}

#[tactic(auto, unfolding(crate::specs::Paper::Table::good_width, crate::specs::Paper::Table::good_code))]
pub fn good_code(code: Code) -> bool
    ensures { result ≡ good_code code }
{
    match code.k {
        2 => (1..=3).contains(&code.s),
        4 => (1..=15).contains(&code.s),
        _ => false,
    }
}

// The number of base symbols.
pub fn base_of(good: GoodCode) -> u32
    ensures { result ≡ base good.code }
{
    if good.code.k == 2 { 4 } else { 16 }
}

// How many stoppers there are at a place of a codeword.
#[tactic(auto, unfolding(crate::specs::Paper::Table::stoppers))]
pub fn stoppers_at(code: Code, place: u32) -> u32
    ensures { result ≡ stoppers code place }
{
    u32::from(code.s)
}

// Where the codewords of a length begin: the place of their stopper, and how many codewords are shorter.
#[derive(Clone, Copy)]
struct Border {
    at: u32,
    shorter: u32,
}

// Where the codewords of a rank's length begin, if all places are alike: `one` codewords have one symbol, `two` have two, each length c times as many as the
// one before; `to_two` have at most two. Past six borders either all lengths have as many, c being 1, or at most one more border is below 256.
fn border_of(one: u32, c: u32, rank: u32) -> Border
    requires { (0 < one) × (one ≤ 4096) × (0 < c) × (c < 16) × (4 ≤ one + c) × (rank < 256) }
    ensures { Within (one + c) (λ _. one) rank result.at × (result.shorter ≡ shorter (one + c) (λ _. one) result.at) }
{
    if rank < one {
        return Border { at: 0, shorter: 0 };
    }
    let two = one * c;
    let to_two = one + two;
    if rank < to_two {
        return Border {
            at: 1,
            shorter: one,
        };
    }
    let three = two * c;
    let to_three = to_two + three;
    if rank < to_three {
        return Border {
            at: 2,
            shorter: to_two,
        };
    }
    let four = three * c;
    let to_four = to_three + four;
    if rank < to_four {
        return Border {
            at: 3,
            shorter: to_three,
        };
    }
    let five = four * c;
    let to_five = to_four + five;
    if rank < to_five {
        return Border {
            at: 4,
            shorter: to_four,
        };
    }
    let six = five * c;
    let to_six = to_five + six;
    if rank < to_six {
        return Border {
            at: 5,
            shorter: to_five,
        };
    }
    let seven = six * c;
    let more = (rank - to_six) / seven;
    Border {
        at: 6 + more,
        shorter: to_six + more * seven,
    }
}

// The stopper's place in the codeword of a rank, and q. From the third place on all are alike. Where the first or the second is not, which stoppers_at
// does not have yet, these two are asked for themselves; behind them the lengths grow as in a code of their own.
pub fn place_of(good: GoodCode, rank: u32) -> Place
    requires { rank < 256 }
    ensures { result ≡ place_of good.code rank }
{
    let m = base_of(good);
    let first = stoppers_at(good.code, 0);
    let second = stoppers_at(good.code, 1);
    let later = stoppers_at(good.code, 2);
    if first == later && second == later {
        let b = border_of(later, m - later, rank);
        return Place {
            at: b.at,
            q: rank - b.shorter,
        };
    }
    if rank < first {
        return Place { at: 0, q: rank };
    }
    let rest = rank - first;
    let two = (m - first) * second;
    if rest < two {
        return Place { at: 1, q: rest };
    }
    let b = border_of((m - first) * (m - second) * later, m - later, rest - two);
    Place {
        at: 2 + b.at,
        q: rest - two - b.shorter,
    }
}

// How many symbols the codeword of a rank has.
pub fn length_of(good: GoodCode, rank: u32) -> u32
    requires { rank < 256 }
    ensures { result ≡ length_of good.code rank }
{
    place_of(good, rank).at + 1
}
