// The numbers of the six records of a file that stand before the table (01, "The file").
#![tactic(auto)]

ghost use Rattle.std.specs.Prelude.{◌≡◌, length};
ghost use Rattle.file_spec.specs.Figures.{figures_of};
ghost use Rattle.figure.specs.Bounds.{Small};
ghost use Rattle.file_gather.specs.Bounds.{AllWithin};
ghost use Rattle.file_records.specs.Order.{from_firstx, from_npoints};
ghost use Rattle.file_records.specs.Bounds.{FactorsRead, FiguresIn};

use file_marks::mark_in;
use file_spec::{Decimal, Needed, Numbers};
use file_texts::{count_in, decimal_in, factor_in};

// The numbers of the six records before the table, or the place of the first that is wrong (26): XFACTOR and YFACTOR, and then the rest.
pub fn figures(file: &[u8], x: Needed) -> Result<Numbers, usize>
    requires { AllWithin (length file.now) x }
    ensures { (result ≡ figures_of file.now x) × FiguresIn result }
{
    let one = x.xfactor;
    let Some(xfactor) = factor_in(file, one) else {
        return Err(mark_in(file, one));
    };
    let two = x.yfactor;
    let Some(yfactor) = factor_in(file, two) else {
        return Err(mark_in(file, two));
    };
    figures_from_firstx(file, x, xfactor, yfactor)
}

// FIRSTX and LASTX, after the factors, and then the rest.
fn figures_from_firstx(
    file: &[u8],
    x: Needed,
    xfactor: Decimal,
    yfactor: Decimal,
) -> Result<Numbers, usize>
    requires { FactorsRead (length file.now) x xfactor yfactor }
    ensures { (result ≡ from_firstx file.now x xfactor yfactor) × FiguresIn result }
{
    let one = x.firstx;
    let Some(firstx) = decimal_in(file, one) else {
        return Err(mark_in(file, one));
    };
    let two = x.lastx;
    let Some(lastx) = decimal_in(file, two) else {
        return Err(mark_in(file, two));
    };
    figures_from_npoints(file, x, xfactor, yfactor, firstx, lastx)
}

// NPOINTS and FIRSTY, after the factors and the abscissas.
fn figures_from_npoints(
    file: &[u8],
    x: Needed,
    xfactor: Decimal,
    yfactor: Decimal,
    firstx: Decimal,
    lastx: Decimal,
) -> Result<Numbers, usize>
    requires { FactorsRead (length file.now) x xfactor yfactor × Small firstx × Small lastx }
    ensures { (result ≡ from_npoints file.now x xfactor yfactor firstx lastx) × FiguresIn result }
{
    let one = x.npoints;
    let Some(npoints) = count_in(file, one) else {
        return Err(mark_in(file, one));
    };
    let two = x.firsty;
    let Some(firsty) = decimal_in(file, two) else {
        return Err(mark_in(file, two));
    };
    Ok(Numbers {
        xfactor,
        yfactor,
        firstx,
        lastx,
        npoints: npoints.value,
        firsty,
    })
}
