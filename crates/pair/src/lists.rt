//! The calls that one of two mills is asked.
ghost use Rattle.std.specs.Prelude.{map, IfOk};
ghost use Rattle.std.specs.List.{AllZip};
ghost use Rattle.mill.specs.Asked.{command_of};
ghost use Rattle.pair.specs.PairCalls.{ActsAlike, pair_of, side_of};

use crate::pair_call::{PairCall, Side};
use mill::call::Call;
use std::alloc::{AllocError, Global};

// A side's calls.
pub(crate) fn asked_on<'a>(
    heap: Global,
    side: Side<'_>,
    calls: &'a [PairCall],
) -> Result<Vec<Call<'a>>, AllocError>
    ensures { IfOk result (λ v. AllZip ActsAlike (map command_of v.items)
        (map (side_of side.entry) (map pair_of calls.now))) }
{
    calls.iter().map(|call| call.on(side)).collect(heap)
}
