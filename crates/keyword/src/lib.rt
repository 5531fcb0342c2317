// A text against a keyword: byte for byte, blanks, line ends and comments around it dropped (02, T-07 and T-09).
#![tactic(auto)]

ghost use Rattle.std.specs.Prelude.{◌≡◌, ◌≤◌, length};
ghost use Rattle.keyword_spec.specs.Keywords.{is_word};
ghost use Rattle.keyword.specs.Post.{Worded};

use label_space::past_space;

// Does the word stand at a place of a text, byte for byte?
fn word_at(t: &[u8], p: usize, w: &[u8]) -> bool
    requires { p ≤ length t.now }
    ensures { Worded t.now p w.now result }
{
    t[p..].starts_with(w)
}

// Is a text this word, with blanks, line ends and comments around it dropped?
pub fn is_keyword(t: &[u8], w: &[u8]) -> bool
    ensures { result ≡ is_word w.now t.now }
{
    let p = past_space(t, 0);
    word_at(t, p, w) && past_space(t, p + w.len()) == t.len()
}
