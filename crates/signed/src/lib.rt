// Ordinates between the lent slice and the code (01, "The frame of a table"): an entry y of the slice is the ordinate y + 2^31, and -2,147,483,648, the mark of a missing one, is 0.
// 0 and no Option for a missing one: `table_spec` Frame, which may not change, defines `ordinate_of` and `entry_for` so.
#![tactic(auto)]

ghost use Rattle.std.specs.Prelude.{◌≡◌, map, ◌<◌, length, get_or};
ghost use Rattle.table_spec.specs.Frame.{ordinate_of, entry_for};

// Where zero stands among the ordinates.
pub const ZERO_ORDINATE: u64 = 2147483648;

// No ordinate is as large as this.
pub const PAST_ORDINATES: u64 = 4294967296;

// The entry of the slice for an ordinate.
pub fn entry_for(u: u64) -> i32
    requires { u < 4294967296 }
    ensures { result ≡ entry_for u }
{
    let v = u as i64;
    let w = v - 2147483648;
    w as i32
}

// The ordinate that an entry of the slice is.
pub fn ordinate_of(y: i32) -> u64
    ensures { (result ≡ ordinate_of y) × (result < 4294967296) }
{
    let a = y as i64;
    let b = a + 2147483648;
    b as u64
}

// The ordinate at an index of the slice.
pub fn ordinate_at(ys: &[i32], k: usize) -> u64
    requires { k < length ys.now }
    ensures { (result ≡ get_or (map ordinate_of ys.now) k 0) × (result < 4294967296) }
{
    ordinate_of(ys[k])
}
