// The gatherer of turns; the cells of the open turn and of the turn just closed are lent.
ghost use Rattle.std.specs.Prelude.{◌≡◌};
ghost use Rattle.bernkessel.specs.Turn.{gatherer_in, gatherer_out, gathered_out, row_out};
ghost use Rattle.bernkessel.specs.Promises.{GathererFresh, SampleGathered, RowIsGathered};

use crate::sample::BkSample;
use paper::refusal::Refusal;
use turn::gather::{Gathered, Gatherer, RowGathered};

#[repr(C)]
#[derive(Clone, Copy)]
pub struct BkGatherer {
    pub count: u16,
}

// `turn` is the count of samples of the turn that closed, and 0 where none closed.
#[repr(C)]
#[derive(Clone, Copy)]
pub struct BkGathered {
    pub gatherer: BkGatherer,
    pub turn: u16,
    pub refusal: u8,
}

#[repr(C)]
#[derive(Clone, Copy)]
pub struct BkRowGathered {
    pub gathered: BkGathered,
    pub words: usize,
}

#[unsafe(no_mangle)]
pub extern "C" fn bk_gatherer_new() -> BkGatherer
    ensures { GathererFresh result }
{
    Gatherer::new().into()
}

#[unsafe(no_mangle)]
pub extern "C" fn bk_gatherer_request(gatherer: BkGatherer) -> BkGatherer
    ensures { GathererFresh result }
{
    Gatherer::from(gatherer).request().into()
}

#[unsafe(no_mangle)]
pub extern "C" fn bk_gatherer_sample(
    gatherer: BkGatherer,
    sample: BkSample,
    filling: &mut [u16; 360],
    closed: &mut [u16; 360],
) -> BkGathered
    ensures { SampleGathered gatherer sample filling.old closed.old result filling.new closed.new }
{
    gathered_out(
        gatherer,
        Gatherer::from(gatherer).sample(sample.into(), filling, closed),
    )
}

#[unsafe(no_mangle)]
pub extern "C" fn bk_gatherer_row(
    gatherer: BkGatherer,
    words: &[u16],
    filling: &mut [u16; 360],
    closed: &mut [u16; 360],
) -> BkRowGathered
    ensures { RowIsGathered gatherer words.now filling.old closed.old result filling.new closed.new }
{
    row_out(
        gatherer,
        Gatherer::from(gatherer).row(words, filling, closed),
    )
}

impl From<BkGatherer> for Gatherer {
    ghost from_gives = { λ c r. r ≡ gatherer_in c };

    #[tactic(auto, unfolding(crate::specs::Turn::gatherer_in))]
    fn from(c: BkGatherer) -> Gatherer {
        Gatherer { count: c.count }
    }
}

impl From<Gatherer> for BkGatherer {
    ghost from_gives = { λ s r. r ≡ gatherer_out s };

    #[tactic(auto, unfolding(crate::specs::Turn::gatherer_out))]
    fn from(gatherer: Gatherer) -> BkGatherer {
        BkGatherer {
            count: gatherer.count,
        }
    }
}

// By cases: `split` over all that stands beside a refusal would be no plainer.
#[tactic(auto, unfolding(crate::specs::Turn::gathered_out))]
fn gathered_out(was: BkGatherer, gathered: Result<Gathered, Refusal>) -> BkGathered
    ensures { result ≡ gathered_out was gathered }
{
    match gathered {
        Ok(gathered) => BkGathered {
            gatherer: gathered.gatherer.into(),
            turn: gathered.turn.unwrap_or(0),
            refusal: 0,
        },
        Err(q) => BkGathered {
            gatherer: was,
            turn: 0,
            refusal: q.number(),
        },
    }
}

#[tactic(auto, unfolding(crate::specs::Turn::row_out))]
fn row_out(was: BkGatherer, row: Result<RowGathered, Refusal>) -> BkRowGathered
    ensures { result ≡ row_out was row }
{
    BkRowGathered {
        gathered: gathered_out(was, row.map(|r| r.gathered)),
        words: row.map_or(0, |r| r.words),
    }
}
