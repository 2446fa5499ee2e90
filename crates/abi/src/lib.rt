// The C interface: plain numbers and slices in, one signed number out, which is 0 or a count where the call is accepted and minus the number
// of documents 01 and 02 where it is refused. A slice is a pointer and a length. Each export calls the operation of the same name.
#![tactic(auto)]

ghost use Rattle.std.specs.Prelude.{◌≡◌, length};
ghost use Rattle.basics.specs.Outcome.{Reports};
ghost use Rattle.field.specs.Products.{products_outcome};
ghost use Rattle.curve.specs.Points.{points_outcome};
ghost use Rattle.code.specs.Heard.{heard_outcome};
ghost use Rattle.blocks.specs.Outcomes.{plain_outcome, pack_block_outcome, unpack_block_outcome};
ghost use Rattle.coder.specs.Outcomes.{recover_outcome, systematic_function_outcome, systematic_word_outcome, matrix_outcome, relation_outcome, pick_outcome, rebuild_outcome};
ghost use Rattle.correction.specs.Outcomes.{correct_outcome};
ghost use Rattle.best.specs.Outcomes.{best_outcome};
ghost use Rattle.hours.specs.Means.{means_outcome};
ghost use Rattle.rolling.specs.Bytes.{fresh_outcome, rolling_outcome};
ghost use Rattle.sheet.specs.Job.{sheet_outcome};
ghost use Rattle.abi.specs.Arguments.{curve_of, parameters_of, code_from};

use basics::{count_status, status};
use codewords::Parameters;
use elliptic::Curve;

// The products of two lists of symbols, element by element.
#[unsafe(no_mangle)]
pub extern "C" fn vakhudle_products(field: u8, a: &[u8], b: &[u8], out: &mut [u8]) -> i32
    ensures { Reports (products_outcome field a.now b.now (length out.old)) result out.old out.new }
{
    status(field::products(field, a, b, out))
}

// Points.
#[unsafe(no_mangle)]
pub extern "C" fn vakhudle_points(
    field: u8,
    g1: u8,
    g2: u8,
    g3: u8,
    g4: u8,
    g6: u8,
    xs: &mut [u8],
    ys: &mut [u8],
) -> i32
    ensures { Reports (points_outcome field (curve_of g1 g2 g3 g4 g6) xs.old ys.old) result
        (xs.old, ys.old) (xs.new, ys.new) }
{
    count_status(curve::points(field, Curve { g1, g2, g3, g4, g6 }, xs, ys))
}

// Means.
#[unsafe(no_mangle)]
pub extern "C" fn vakhudle_means(
    stamps: &[u32],
    readings: &[i16],
    first: u32,
    out: &mut [i16],
) -> i32
    ensures { Reports (means_outcome stamps.now readings.now first (length out.old)) result out.old out.new }
{
    status(hours::means::means(stamps, readings, first, out))
}

// The rolling state before the first hour.
#[unsafe(no_mangle)]
pub extern "C" fn vakhudle_rolling_fresh(out: &mut [u8]) -> i32
    ensures { Reports (fresh_outcome out.old) result out.old out.new }
{
    status(rolling::calls::rolling_fresh(out))
}

// Rolling.
#[unsafe(no_mangle)]
pub extern "C" fn vakhudle_rolling(state: &mut [u8], hour: u32, mean: i16, out: &mut [i16]) -> i32
    ensures { Reports (rolling_outcome state.old hour mean out.old) result
        (state.old, out.old) (state.new, out.new) }
{
    status(rolling::calls::rolling(state, hour, mean, out))
}

// The answer to a job sheet.
#[unsafe(no_mangle)]
pub extern "C" fn vakhudle_sheet(text: &[u8], out: &mut [u8]) -> i32
    ensures { Reports (sheet_outcome text.now out.old) result out.old out.new }
{
    count_status(sheet::answer::answer_sheet(text, out))
}

// The parts of a code but its coordinate lists.
fn parameters(field: u8, g1: u8, g2: u8, g3: u8, g4: u8, g6: u8, k: usize) -> Parameters
    ensures { result ≡ parameters_of field g1 g2 g3 g4 g6 k }
{
    let curve = Curve { g1, g2, g3, g4, g6 };
    Parameters { field, curve, k }
}

// Plain.
#[unsafe(no_mangle)]
pub extern "C" fn vakhudle_plain(
    field: u8,
    g1: u8,
    g2: u8,
    g3: u8,
    g4: u8,
    g6: u8,
    xs: &[u8],
    ys: &[u8],
    k: usize,
    coefficients: &[u8],
    out: &mut [u8],
) -> i32
    ensures { Reports (plain_outcome (code_from field g1 g2 g3 g4 g6 k xs.now ys.now) coefficients.now (length out.old)) result out.old out.new }
{
    let parts = parameters(field, g1, g2, g3, g4, g6, k);
    status(blocks::plain::plain(parts, xs, ys, coefficients, out))
}

// Heard.
#[unsafe(no_mangle)]
pub extern "C" fn vakhudle_heard(
    field: u8,
    g1: u8,
    g2: u8,
    g3: u8,
    g4: u8,
    g6: u8,
    xs: &[u8],
    ys: &[u8],
    k: usize,
    mask: &[u8],
    out: &mut [u16],
) -> i32
    ensures { Reports (heard_outcome (code_from field g1 g2 g3 g4 g6 k xs.now ys.now) mask.now out.old) result out.old out.new }
{
    let parts = parameters(field, g1, g2, g3, g4, g6, k);
    count_status(code::heard::heard(parts, xs, ys, mask, out))
}

// Pack.
#[unsafe(no_mangle)]
pub extern "C" fn vakhudle_pack(
    field: u8,
    g1: u8,
    g2: u8,
    g3: u8,
    g4: u8,
    g6: u8,
    xs: &[u8],
    ys: &[u8],
    k: usize,
    means: &[i16],
    out: &mut [u8],
) -> i32
    ensures { Reports (pack_block_outcome (code_from field g1 g2 g3 g4 g6 k xs.now ys.now) means.now (length out.old)) result out.old out.new }
{
    let parts = parameters(field, g1, g2, g3, g4, g6, k);
    status(blocks::packing::pack(parts, xs, ys, means, out))
}

// Unpack.
#[unsafe(no_mangle)]
pub extern "C" fn vakhudle_unpack(
    field: u8,
    g1: u8,
    g2: u8,
    g3: u8,
    g4: u8,
    g6: u8,
    xs: &[u8],
    ys: &[u8],
    k: usize,
    symbols: &[u8],
    out: &mut [i16],
) -> i32
    ensures { Reports (unpack_block_outcome (code_from field g1 g2 g3 g4 g6 k xs.now ys.now) symbols.now (length out.old)) result out.old out.new }
{
    let parts = parameters(field, g1, g2, g3, g4, g6, k);
    status(blocks::packing::unpack(parts, xs, ys, symbols, out))
}

// Recover.
#[unsafe(no_mangle)]
pub extern "C" fn vakhudle_recover(
    field: u8,
    g1: u8,
    g2: u8,
    g3: u8,
    g4: u8,
    g6: u8,
    xs: &[u8],
    ys: &[u8],
    k: usize,
    symbols: &[u8],
    out: &mut [u8],
    work: &mut [u8],
) -> i32
    ensures { Reports (recover_outcome (code_from field g1 g2 g3 g4 g6 k xs.now ys.now) symbols.now out.old work.old) result
        (out.old, work.old) (out.new, work.new) }
{
    let parts = parameters(field, g1, g2, g3, g4, g6, k);
    status(coder::recover::recover(parts, xs, ys, symbols, out, work))
}

// Systematic function.
#[unsafe(no_mangle)]
pub extern "C" fn vakhudle_systematic_function(
    field: u8,
    g1: u8,
    g2: u8,
    g3: u8,
    g4: u8,
    g6: u8,
    xs: &[u8],
    ys: &[u8],
    k: usize,
    places: &[u16],
    message: &[u8],
    out: &mut [u8],
    work: &mut [u8],
) -> i32
    ensures { Reports (systematic_function_outcome (code_from field g1 g2 g3 g4 g6 k xs.now ys.now) places.now message.now out.old work.old) result
        (out.old, work.old) (out.new, work.new) }
{
    let parts = parameters(field, g1, g2, g3, g4, g6, k);
    status(coder::systematic_function::systematic_function(
        parts, xs, ys, places, message, out, work,
    ))
}

// Systematic word.
#[unsafe(no_mangle)]
pub extern "C" fn vakhudle_systematic_word(
    field: u8,
    g1: u8,
    g2: u8,
    g3: u8,
    g4: u8,
    g6: u8,
    xs: &[u8],
    ys: &[u8],
    k: usize,
    places: &[u16],
    message: &[u8],
    out: &mut [u8],
    work: &mut [u8],
) -> i32
    ensures { Reports (systematic_word_outcome (code_from field g1 g2 g3 g4 g6 k xs.now ys.now) places.now message.now out.old work.old) result
        (out.old, work.old) (out.new, work.new) }
{
    let parts = parameters(field, g1, g2, g3, g4, g6, k);
    status(coder::systematic_word::systematic_word(parts, xs, ys, places, message, out, work))
}

// Matrix.
#[unsafe(no_mangle)]
pub extern "C" fn vakhudle_matrix(
    field: u8,
    g1: u8,
    g2: u8,
    g3: u8,
    g4: u8,
    g6: u8,
    xs: &[u8],
    ys: &[u8],
    k: usize,
    places: &[u16],
    out: &mut [u8],
    work: &mut [u8],
) -> i32
    ensures { Reports (matrix_outcome (code_from field g1 g2 g3 g4 g6 k xs.now ys.now) places.now out.old work.old) result
        (out.old, work.old) (out.new, work.new) }
{
    let parts = parameters(field, g1, g2, g3, g4, g6, k);
    status(matrix::operation::matrix(parts, xs, ys, places, out, work))
}

// Relation.
#[unsafe(no_mangle)]
pub extern "C" fn vakhudle_relation(
    field: u8,
    g1: u8,
    g2: u8,
    g3: u8,
    g4: u8,
    g6: u8,
    xs: &[u8],
    ys: &[u8],
    k: usize,
    places: &[u16],
    out: &mut [u8],
    work: &mut [u8],
) -> i32
    ensures { Reports (relation_outcome (code_from field g1 g2 g3 g4 g6 k xs.now ys.now) places.now out.old work.old) result
        (out.old, work.old) (out.new, work.new) }
{
    let parts = parameters(field, g1, g2, g3, g4, g6, k);
    status(coder::relation::relation(parts, xs, ys, places, out, work))
}

// Pick.
#[unsafe(no_mangle)]
pub extern "C" fn vakhudle_pick(
    field: u8,
    g1: u8,
    g2: u8,
    g3: u8,
    g4: u8,
    g6: u8,
    xs: &[u8],
    ys: &[u8],
    k: usize,
    ranked: &[u16],
    out: &mut [u16],
    work: &mut [u8],
) -> i32
    ensures { Reports (pick_outcome (code_from field g1 g2 g3 g4 g6 k xs.now ys.now) ranked.now out.old work.old) result
        (out.old, work.old) (out.new, work.new) }
{
    let parts = parameters(field, g1, g2, g3, g4, g6, k);
    status(coder::pick::pick(parts, xs, ys, ranked, out, work))
}

// Rebuild.
#[unsafe(no_mangle)]
pub extern "C" fn vakhudle_rebuild(
    field: u8,
    g1: u8,
    g2: u8,
    g3: u8,
    g4: u8,
    g6: u8,
    xs: &[u8],
    ys: &[u8],
    k: usize,
    places: &[u16],
    symbols: &[u8],
    out: &mut [u8],
    work: &mut [u8],
) -> i32
    ensures { Reports (rebuild_outcome (code_from field g1 g2 g3 g4 g6 k xs.now ys.now) places.now symbols.now out.old work.old) result
        (out.old, work.old) (out.new, work.new) }
{
    let parts = parameters(field, g1, g2, g3, g4, g6, k);
    status(coder::rebuild::rebuild(parts, xs, ys, places, symbols, out, work))
}

// Correct.
#[unsafe(no_mangle)]
pub extern "C" fn vakhudle_correct(
    field: u8,
    g1: u8,
    g2: u8,
    g3: u8,
    g4: u8,
    g6: u8,
    xs: &[u8],
    ys: &[u8],
    k: usize,
    received: &[u8],
    out: &mut [u8],
    work: &mut [u8],
) -> i32
    ensures { Reports (correct_outcome (code_from field g1 g2 g3 g4 g6 k xs.now ys.now) received.now out.old work.old) result
        (out.old, work.old) (out.new, work.new) }
{
    let parts = parameters(field, g1, g2, g3, g4, g6, k);
    count_status(correction::operation::correct(parts, xs, ys, received, out, work))
}

// Best.
#[unsafe(no_mangle)]
pub extern "C" fn vakhudle_best(
    field: u8,
    g1: u8,
    g2: u8,
    g3: u8,
    g4: u8,
    g6: u8,
    xs: &[u8],
    ys: &[u8],
    k: usize,
    received: &[u8],
    trusts: &[u8],
    budget: u32,
    symbols_out: &mut [u8],
    figures_out: &mut [u32],
    work: &mut [u8],
) -> i32
    ensures { Reports (best_outcome (code_from field g1 g2 g3 g4 g6 k xs.now ys.now) received.now trusts.now budget
        symbols_out.old figures_out.old work.old) result
        (symbols_out.old, figures_out.old, work.old) (symbols_out.new, figures_out.new, work.new) }
{
    let parts = parameters(field, g1, g2, g3, g4, g6, k);
    status(best::operation::best(
        parts,
        xs,
        ys,
        received,
        trusts,
        budget,
        symbols_out,
        figures_out,
        work,
    ))
}
