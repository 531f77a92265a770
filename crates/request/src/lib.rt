//! The request of a call: code 11 of document 01, or the set of its indices.
#![tactic(auto)]

ghost use Rattle.std.specs.Prelude.{false, ◌≡◌, ◌≤◌};
ghost use Rattle.cpl.specs.Tests.{iota};
ghost use Rattle.request.specs.Requests.{RequestIs};
ghost use Rattle.required_indices.specs.Request.{Asks, flag_of};
ghost use Rattle.rules.specs.Request.{mask_of, request_fault};

use refusals::{Reason, Refusal};
use required_indices::RequiredIndices;

/// The indices asked for of `width` fields, at most 512; or the refusal at the first position whose index is not above the one before it or not below `width`.
pub fn check_request(request: &[u16], width: usize) -> Result<RequiredIndices, Refusal>
    requires { width ≤ 512 }
    ensures { RequestIs width request.now result (request_fault width request.now) }
{
    let mut set = RequiredIndices::new();
    let mut least: usize = 0;
    for (i, &index) in request.iter().enumerate() {
        let x = usize::from(index);
        if x < least || width <= x {
            return Err(Refusal::new(Reason::Request, i));
        }
        set.insert(x);
        least = x + 1;
    }
    Ok(set)
}

/// All of `width` fields, at most 512.
pub fn all_fields(width: usize) -> RequiredIndices
    requires { width ≤ 512 }
    ensures { Asks result (mask_of width (iota 0 width)) × (flag_of result ≡ false) }
{
    RequiredIndices::new_for_all_exprs(width)
}
