// An engine and its spool: one advance, one feed.
ghost use Rattle.std.specs.Prelude.{◌≡◌};
ghost use Rattle.engine.specs.Engines.{advanced};
ghost use Rattle.spool.specs.Kept.{Kept};
ghost use Rattle.spool.specs.Views.{view, advance_v, feed_v, feeds_v};

use engine::{Advanced, Engine};
use spool::Spool;

// What the engine stacks the spool counts.
pub fn advance_once<E: Engine>(engine: &mut E, spool: &mut Spool) -> Advanced
    ensures answer { result ≡ advanced (E.paper engine.old) }
    ensures view { view (E.paper engine.new) spool.new ≡ advance_v (view (E.paper engine.old) spool.old) }
    ensures kept { Kept spool.old → Kept spool.new }
{
    let advanced = engine.advance();
    if let Advanced::Stacked(_) = advanced {
        spool.stack();
    }
    advanced
}

// What the engine takes the spool commits. Answers whether a sheet was fed: a turn tells that and no
// ground, so an error would be let go at once.
pub fn feed_next<E: Engine>(engine: &mut E, spool: &mut Spool) -> bool
    ensures answer { result ≡ feeds_v E.K (view (E.paper engine.old) spool.old) }
    ensures view { view (E.paper engine.new) spool.new ≡ feed_v E.K (view (E.paper engine.old) spool.old) }
    ensures kept { Kept spool.old → Kept spool.new }
{
    let Some(sheet) = spool.next() else {
        return false;
    };
    let taken = engine.feed(sheet);
    if taken {
        spool.commit();
    }
    taken
}
