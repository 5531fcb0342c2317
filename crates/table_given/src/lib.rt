// The tests before a table is written (01, "The written text"): its frame, and an ordinate for each of its points.
#![tactic(auto)]

ghost use Rattle.table_given.specs.Checks.{Checks};

use frame::Frame;
use terms::Reason;

// The tests before writing: a legal frame (1), then as many ordinates as points (2).
pub fn check(first: i64, last: i64, points: usize, ordinates: &[i32]) -> Result<Frame, Reason>
    ensures { Checks first last points ordinates.now result }
{
    match Frame::new(first, last, points) {
        None => Err(Reason::OutsideLimits),
        Some(fr) => {
            if ordinates.len() < points {
                return Err(Reason::LittleRoom);
            }
            Ok(fr)
        }
    }
}
