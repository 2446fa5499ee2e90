// Best past its tests. The working space is used, since nothing is refused any more.
ghost use Rattle.std.specs.Prelude.{◌≡◌, ◌≤◌, length, take, drop};
ghost use Rattle.code.specs.Shown.{shown};
ghost use Rattle.solving.specs.Tests.{room, cleared};
ghost use Rattle.patterns.specs.Best.{best, best_cost};
ghost use Rattle.picked_rows.specs.Stored.{Prepared};
ghost use Rattle.best.specs.Outcomes.{figures_of};
ghost use Rattle.best.specs.Given.{Given};

use crate::figures::write_figures;
use crate::write::write_word;
use code::accepted::Code;
use picked_rows::base::prepare;
use ranked::pick::pick_ranked;
use ranked::rank::rank;
use search::run::search;
use solving::work::clear_room;

// The places ranked and picked, and in the working space all that the tries need. An array is lent while it is computed.
fn begin_best(
    code: &Code,
    received: &[u8],
    trusts: &[u8],
    ranked: &mut [u16],
    spare: &mut [u8],
    work: &mut [u8],
)
    requires given { Given (shown code.now) received.now trusts.now × (length ranked.old ≡ length code.now.xs.now) × (length spare.old ≡ length code.now.xs.now) × (room ≤ length work.old) }
    ensures { Prepared (shown code.now) received.now trusts.now (take code.now.k ranked.new) work.new
        × (drop room work.new ≡ drop room work.old) }
{
    rank(trusts, ranked);
    pick_ranked(code, ranked);
    let k = code.k;
    prepare(code, received, trusts, &ranked[..k], spare, work);
}

// The word, with its cost. Beside it an array of its own for the rows.
fn find_best(
    code: &Code,
    received: &[u8],
    trusts: &[u8],
    places: &[u16],
    budget: usize,
    work: &[u8],
    out: &mut [u8],
) -> u32
    requires prepared { Prepared (shown code.now) received.now trusts.now places.now work.now × (length out.old ≡ length code.now.xs.now) × (1 ≤ budget) }
    ensures { (out.new ≡ best (shown code.now) received.now trusts.now budget)
        × (result ≡ best_cost (shown code.now) received.now trusts.now budget) }
{
    let n = code.xs.len();
    let mut row = [0u8; 288];
    let found = search(
        code,
        received,
        trusts,
        places,
        work,
        out,
        &mut row[..n],
        budget,
    );
    write_word(
        code,
        received,
        trusts,
        places,
        work,
        found,
        &mut row[..n],
        out,
    );
    found.cost
}

// The word and its figures. The list of ranked places is lent.
fn best_in(
    code: &Code,
    received: &[u8],
    trusts: &[u8],
    budget: usize,
    ranked: &mut [u16],
    out: &mut [u8],
    figures: &mut [u32],
    work: &mut [u8],
)
    requires given { Given (shown code.now) received.now trusts.now × (length ranked.old ≡ length code.now.xs.now) × (length out.old ≡ length code.now.xs.now) × (length figures.old ≡ 3)
        × (room ≤ length work.old) × (1 ≤ budget) × (budget ≤ 65535) }
    ensures { (out.new ≡ best (shown code.now) received.now trusts.now budget)
        × (figures.new ≡ figures_of (shown code.now) received.now trusts.now budget)
        × (work.new ≡ cleared work.old) }
{
    begin_best(code, received, trusts, ranked, out, work);
    let k = code.k;
    let cost = find_best(code, received, trusts, &ranked[..k], budget, work, out);
    let m = code.field.number;
    write_figures(m, trusts, &ranked[..k], budget, cost, figures);
    clear_room(work);
}

// The same with a list of its own: 576 bytes.
pub fn best_run(
    code: &Code,
    received: &[u8],
    trusts: &[u8],
    budget: usize,
    out: &mut [u8],
    figures: &mut [u32],
    work: &mut [u8],
)
    requires given { Given (shown code.now) received.now trusts.now × (length out.old ≡ length code.now.xs.now) × (length figures.old ≡ 3)
        × (room ≤ length work.old) × (1 ≤ budget) × (budget ≤ 65535) }
    ensures { (out.new ≡ best (shown code.now) received.now trusts.now budget)
        × (figures.new ≡ figures_of (shown code.now) received.now trusts.now budget)
        × (work.new ≡ cleared work.old) }
{
    let n = code.xs.len();
    let mut ranked = [0u16; 288];
    best_in(
        code,
        received,
        trusts,
        budget,
        &mut ranked[..n],
        out,
        figures,
        work,
    );
}
