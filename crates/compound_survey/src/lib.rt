// The survey of a file's blocks (02, T-07): its length, TITLE, and the walk over the outermost block.
#![tactic(auto)]

ghost use Rattle.compound_survey.specs.Told.{Surveys};

use compound_spec::{Block, Surveyed};
use compound_walk::{count_more, walk_block};
use label_title::open_title;
use terms::{Fault, Reason};

// The most bytes of a file.
const LONGEST_FILE: usize = 1048576;

// The survey of a file's blocks: 19, 21, then 20, 22, 23, 24, 33 in one walk; or the outermost block, what its own labels say, and how many data blocks there are.
pub fn survey(file: &[u8]) -> Result<Surveyed, Fault>
    ensures { Surveys file.now result }
{
    if file.len() > LONGEST_FILE {
        return Err(Fault::of(Reason::LongFile, 0));
    }
    let title = open_title(file)?;
    let closing = walk_block(file, title.mark, title.eq, 7)?;
    Ok(Surveyed {
        outermost: Block {
            title: title.mark,
            eq: title.eq,
            end: closing.end,
            last: closing.last,
        },
        own: closing.own,
        count: count_more(closing.own.link, 0, closing.count),
    })
}
