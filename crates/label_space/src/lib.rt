// Bytes that are passed over before TITLE and around numbers (01, The file).
#![tactic(auto)]

ghost use Rattle.std.specs.Prelude.{◌≡◌, ◌+◌, ◌<◌, ◌≤◌, length, get_or};
ghost use Rattle.label_spec.specs.Space.{space, opens};
ghost use Rattle.label_space.specs.Passed.{Passed};

use text::byte_at;

// Is it a blank or LF?
#[tactic(auto, unfolding(label_spec::specs::Space::space, label_spec::specs::Names::blank))]
fn is_space(b: u8) -> bool
    ensures { result ≡ space b }
{
    matches!(b, b'\n' | b'\t' | b' ')
}

// Is it CR before LF, or `$$`?
#[tactic(auto, unfolding(label_spec::specs::Space::opens))]
fn is_opening(s: &[u8], i: usize) -> bool
    requires { i < length s.now }
    ensures { result ≡ opens (get_or s.now i 0) (get_or s.now (i + 1) 0) }
{
    let c = byte_at(s, i + 1);
    (s[i] == b'\r' && c == b'\n') || (s[i] == b'$' && c == b'$')
}

// The place after blanks, line ends and comments.
pub fn past_space(s: &[u8], at: usize) -> usize
    requires { at ≤ length s.now }
    ensures { Passed s.now at result }
{
    let mut inside = false;
    for i in at..s.len() {
        if inside {
            inside = s[i] != b'\n';
        } else if !is_space(s[i]) {
            if !is_opening(s, i) {
                return i;
            }
            inside = true;
        }
    }
    s.len()
}
