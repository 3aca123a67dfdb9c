// The entries of a lent list as a vector.
ghost use Rattle.std.specs.Prelude.{◌≡◌, IfOk};
ghost use Rattle.list.specs.Entries.{entries};

use list::List;
use std::alloc::{AllocError, Global};

pub fn copied<T: Copy + Drop>(heap: Global, list: &List<T>) -> Result<Vec<T>, AllocError>
    ensures { IfOk result (λ v. v.items ≡ entries list.now) }
{
    let mut all = Vec::new(heap);
    all.extend_from_slice(list.as_slice())?;
    Ok(all)
}
