// Tokens, and what a group of equal ones is (01, "The written text"). Inner functions: ordinates of 32 bits.
#![tactic(auto)]

ghost use Rattle.std.specs.Prelude.{◌≡◌, ◌-◌, ◌≤◌, ◌<◌};
ghost use Rattle.text_tokens.specs.Tokens.{lead_of, TokenFor};

use signed::ZERO_ORDINATE;
use table_text::digits::{DIF, DIF_MINUS, DIF_ZERO, MISSING, SQZ, SQZ_MINUS};

// A token: its number is `size`, and its first digit is written as `base` plus the digit. The next ordinate has the same token if it plus `down` is the one
// before it plus `up`, and it is missing or not as `dif` says, which is true of the DIF form.
#[derive(Clone, Copy)]
pub struct Token {
    pub base: u64,
    pub size: u64,
    pub up: u64,
    pub down: u64,
    pub dif: bool,
}

// A group: its token, how many digits follow the token's first, how many more ordinates have the token, its bytes, and whether its form is DIF.
#[derive(Clone, Copy)]
pub struct Group {
    pub base: u64,
    pub size: u64,
    pub digits: usize,
    pub more: usize,
    pub width: usize,
    pub dif: bool,
}

// The SQZ token of an ordinate.
fn own_token(y: u64) -> Token
    requires { (0 < y) × (y < 4294967296) }
    ensures { TokenFor 0 y result }
{
    if ZERO_ORDINATE <= y {
        return Token {
            base: SQZ,
            size: y - ZERO_ORDINATE,
            up: 0,
            down: 0,
            dif: false,
        };
    }
    Token {
        base: SQZ_MINUS,
        size: ZERO_ORDINATE - y,
        up: 0,
        down: 0,
        dif: false,
    }
}

// What the first digit of the DIF for y after p is added to.
pub fn base_of(p: u64, y: u64) -> u64
    ensures { (result ≡ lead_of p y) × (result ≤ 105) }
{
    if y < p {
        return DIF_MINUS;
    }
    if y == p {
        return DIF_ZERO;
    }
    DIF
}

// The DIF token of the ordinate y after p, without a jump on whether it is above or below.
fn dif_token(p: u64, y: u64) -> Token
    requires { (0 < p) × (p < 4294967296) × (0 < y) × (y < 4294967296) }
    ensures { TokenFor p y result }
{
    let up = y.saturating_sub(p);
    let down = p.saturating_sub(y);
    Token {
        base: base_of(p, y),
        size: up + down,
        up,
        down,
        dif: true,
    }
}

// The token of the ordinate y after p; 0: a missing one, or none before it.
pub fn token_of(p: u64, y: u64) -> Token
    requires { (p < 4294967296) × (y < 4294967296) }
    ensures { TokenFor p y result }
{
    if y == 0 {
        return Token {
            base: MISSING,
            size: 0,
            up: 0,
            down: 0,
            dif: false,
        };
    }
    if p == 0 {
        return own_token(y);
    }
    dif_token(p, y)
}
