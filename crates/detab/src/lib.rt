// The converter of old tables (02, T-13): in the lent bytes, each tab outside a comment becomes a space, and every other byte stays.
#![tactic(auto)]

ghost use Rattle.std.specs.Prelude.{◌≡◌, false, drop};
ghost use Rattle.table_spec.specs.Tabs.{commented, changed, spaced};

// Is the place after the byte b, with the next byte at `next`, within a comment? A line's first `$$` starts one, LF ends it.
fn commented(inside: bool, b: u8, body: &[u8], next: usize) -> bool
    ensures { result ≡ commented inside b (drop next body.now) }
{
    if inside {
        b != b'\n'
    } else {
        b == b'$' && next < body.len() && body[next] == b'$'
    }
}

// The byte that the converter leaves where b stood.
fn changed(inside: bool, b: u8) -> u8
    ensures { result ≡ changed inside b }
{
    if !inside && b == b'\t' { b' ' } else { b }
}

// Converts the body of an old table in place: any bytes.
pub fn detab(body: &mut [u8])
    ensures { body.new ≡ spaced false body.old }
{
    let mut inside = false;
    for i in 0..body.len() {
        let b = body[i];
        body[i] = changed(inside, b);
        inside = commented(inside, b, body, i + 1);
    }
}
