// The frame of a table (01, "The frame of a table"): its limits, the constructor that refuses, and the check of a head.
#![tactic(auto)]

ghost use Rattle.std.specs.Prelude.{◌≡◌, ◌<◌, ◌≤◌};
ghost use Rattle.table_spec.specs.Frame.{passes, apart};
ghost use Rattle.frame.specs.Legal.{framed, lifted, Sound};

// F and L, each plus 10,000,000,000 so that none is negative, and N.
#[derive(Clone, Copy)]
pub struct Frame {
    pub first: u64,
    pub last: u64,
    pub points: usize,
}

// x plus 10,000,000,000, or 0 where x is beyond the largest abscissa.
pub fn lift(x: i64) -> u64
    ensures { result ≡ lifted x }
{
    if x < -Frame::LARGEST_ABSCISSA {
        return 0;
    }
    if x > Frame::LARGEST_ABSCISSA {
        return 0;
    }
    let y = x + 10000000000;
    y as u64
}

// How far apart two numbers are.
pub fn distance(a: u64, b: u64) -> u64
    ensures { result ≡ apart a b }
{
    if a < b {
        return b - a;
    }
    a - b
}

impl Frame {
    pub const MOST_POINTS: usize = 65536;

    pub const LARGEST_ABSCISSA: i64 = 9999999999;

    pub const LONGEST_BODY: usize = 1048576;

    pub const LONGEST_LINE: usize = 80;

    // The frame of any F, L and N, or that they are outside their limits.
    pub fn new(f: i64, l: i64, n: usize) -> Option<Frame>
        ensures { result ≡ framed f l n }
    {
        let first = lift(f);
        let last = lift(l);
        if first == 0 {
            return None;
        }
        if last == 0 {
            return None;
        }
        if n < 1 {
            return None;
        }
        if n > Frame::MOST_POINTS {
            return None;
        }
        if (n == 1) != (first == last) {
            return None;
        }
        Some(Frame {
            first,
            last,
            points: n,
        })
    }

    // Does the head h, an abscissa plus 10,000,000,000, whose last written place is worth so many thousandths, pass for the point of index i? (01, "Checks", and 02, T-03)
    pub fn passes(self, h: u64, unit: u64, i: usize) -> bool
        requires { Sound self × (h < 20000000000) × (unit ≤ 1000) × (i ≤ 65536) }
        ensures { result ≡ passes self.first self.last self.points h unit i }
    {
        let first = self.first;
        let last = self.last;
        let n = self.points;
        if n == 1 {
            return h == first;
        }
        let steps = (n - 1) as u64;
        let index = i as u64;
        let given = h * steps + index * first;
        let asked = first * steps + index * last;
        let off = 2 * distance(given, asked);
        if off < distance(last, first) {
            return true;
        }
        off <= unit * steps
    }
}
