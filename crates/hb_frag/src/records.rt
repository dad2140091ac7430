ghost use Rattle.std.specs.Prelude.{◌≡◌, IfOk};

use hb_space::{NoMemory, Records};
use std::alloc::Global;

/// The same records once more.
pub(crate) fn copies(alloc: Global, source: &Records) -> Result<Records, NoMemory>
    ensures { IfOk result (λ records. records ≡ source.now) }
{
    let source = source.as_slice();
    let mut records = Vec::with_capacity(alloc, source.len())?;
    for record in source {
        records.push(record.copy())?;
    }
    Ok(Records::new(records))
}
