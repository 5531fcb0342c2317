// What is tested before a file is written (02, T-04), and before its length is told (T-10): the title, the decimals, F and L, the frame and the ordinates. Nothing is written.
#![tactic(auto)]

ghost use Rattle.file_write_spec.specs.File.{file_exact, write_file};
ghost use Rattle.figure.specs.Carried.{Carried};
ghost use Rattle.file_plan.specs.Stages.{Scaled, exact_in, in_frame, from_numbers, Plans, PlansAll};

use figure::{agree, exact_with, ratio_of, whole_of};
use file_given::{figures_of, title_fair};
use file_spec::{Exactness, Numbers};
use file_write_spec::Scales;
use frame::Frame;
use terms::Reason;

// A file that can be written: its numbers, F and L, and what of it is exact (02, T-08).
#[derive(Clone, Copy)]
pub struct Plan {
    pub numbers: Numbers,
    pub first: i64,
    pub last: i64,
    pub exact: Exactness,
}

// In F and L: a legal frame (1), enough ordinates (2), the first of them as FIRSTY says (29).
fn plan_in(
    n: Numbers,
    first: i64,
    last: i64,
    first_exact: bool,
    last_exact: bool,
    ordinates: &[i32],
) -> Result<Plan, Reason>
    requires { Scaled n × Carried n first_exact last_exact }
    ensures { PlansAll (λ title space. in_frame title n ordinates.now space first last) (exact_in n ordinates.now) ordinates.now result }
{
    let points = n.npoints as usize;
    match Frame::new(first, last, points) {
        None => Err(Reason::OutsideLimits),
        Some(_) => {
            if ordinates.len() < points {
                return Err(Reason::LittleRoom);
            }
            let firsty = n.firsty;
            let yfactor = n.yfactor;
            let q = ratio_of(0, firsty, yfactor);
            let rounded = q.rounded;
            if !agree(ordinates[0], rounded) {
                return Err(Reason::WrongFirst);
            }
            let exact = exact_with(first_exact, last_exact, q.exact, ordinates[0]);
            Ok(Plan {
                numbers: n,
                first,
                last,
                exact,
            })
        }
    }
}

// F and L within their limits (28), then the rest.
fn plan_numbers(n: Numbers, ordinates: &[i32]) -> Result<Plan, Reason>
    requires { Scaled n }
    ensures { PlansAll (λ title space. from_numbers title n ordinates.now space) (exact_in n ordinates.now) ordinates.now result }
{
    let firstx = n.firstx;
    let lastx = n.lastx;
    let xfactor = n.xfactor;
    let f = ratio_of(3, firstx, xfactor);
    let Some(p) = f.rounded else {
        return Err(Reason::FarAbscissa);
    };
    let l = ratio_of(3, lastx, xfactor);
    let Some(q) = l.rounded else {
        return Err(Reason::FarAbscissa);
    };
    let first = whole_of(p.minus, p.size);
    let last = whole_of(q.minus, q.size);
    plan_in(n, first, last, f.exact, l.exact, ordinates)
}

// The tests of a file, in the order of the refusals: the title (37), the decimals (26), then what their numbers say.
pub fn plan_file(
    title: &[u8],
    points: usize,
    scales: Scales,
    ordinates: &[i32],
) -> Result<Plan, Reason>
    ensures { Plans (write_file title.now points scales ordinates.now) (file_exact scales points ordinates.now)
        title.now ordinates.now result }
{
    if !title_fair(title) {
        return Err(Reason::BadTitle);
    }
    match figures_of(scales, points as u64) {
        Err(_) => Err(Reason::BadNumber),
        Ok(n) => plan_numbers(n, ordinates),
    }
}
