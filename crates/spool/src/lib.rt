// The walker over a spool (02, T-11), which holds the spool and how far it has come. The spool is lent and never written to.
#![tactic(auto)]

ghost use Rattle.std.specs.Prelude.{◌≡◌};
ghost use Rattle.night_spec.specs.Spool.{record_at};

use label_spec::Span;
use spool_record::record_at;
use terms::Fault;

// The walker: the spool, and how far it has come (01, "Code places and their forms"). Its functions are thin: each takes it apart and leaves the work to one on slice and number.
#[derive(Drop)]
pub struct Walker<'a> {
    pub spool: &'a [u8],
    pub at: usize,
}

// A walker at a place of a spool.
pub fn placed<'a>(spool: &'a [u8], at: usize) -> Walker<'a>
    ensures { (result.spool ≡ spool.entry) × (result.at ≡ at) }
{
    Walker { spool, at }
}

// What stands where the walker is, where so many files may still come.
pub fn next<'a>(w: Walker<'a>, left: usize) -> Result<Option<Span>, Fault>
    ensures { result ≡ record_at left w.entry.spool.now w.entry.at }
{
    record_at(w.spool, w.at, left)
}

// The same for callers with a slice and a number, who need no walk by hand.
pub fn next_record(spool: &[u8], at: usize, left: usize) -> Result<Option<Span>, Fault>
    ensures { result ≡ record_at left spool.now at }
{
    next(placed(spool, at), left)
}
