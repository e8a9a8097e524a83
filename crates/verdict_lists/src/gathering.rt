//! The list of verdicts.
ghost use Rattle.std.specs.Prelude.{IfOk};
ghost use Rattle.verdict_lists.specs.Verdicts.{AreVerdicts};
ghost use Rattle.verdict_lists.specs.World.{AreRoots, IsWhole, world_of};

use crate::entries::reached;
use crate::groups::verdicts_of;
use crate::orders::{number, put_in_order};
use crate::verdict::Verdict;
use crate::view::View;
use std::alloc::{AllocError, Global};

/// The verdicts over all results that are reached from some invocations, in the order in which they
/// are listed. It goes over what is reached alone, and copies no row. `Err` where there is no
/// memory.
pub fn gather(alloc: Global, view: &View, roots: &[u32]) -> Result<Vec<Verdict>, AllocError>
    requires whole { IsWhole view.now }
    requires roots { AreRoots (world_of view.now) roots.now }
    ensures { IfOk result (λ list. AreVerdicts (world_of view.now) roots.now list.items) }
{
    let entries = reached(alloc, view, roots)?;
    let mut verdicts = verdicts_of(alloc, view, entries.as_slice())?;
    put_in_order(view, &mut verdicts);
    number(view, &mut verdicts)?;
    Ok(verdicts)
}
