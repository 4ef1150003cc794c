//! Parameters that are hashed.
ghost use Rattle.std.specs.Prelude.{◌≡◌, ◌++◌};
ghost use Rattle.std.specs.Hash as fed;
ghost use Rattle.std.specs.List.{flat_map, fold};
ghost use Rattle.drd_svcb.specs.ParamsHashing.{param_input, params_input};

use drd_param_keys::SvcParamKey;
use drd_params::SvcParamValue;
use std::hash::{Hash, Hasher};

// Feeds a parameter to a hasher.
fn feed_param<H: Hasher>(state: &mut H, param: &(SvcParamKey, SvcParamValue))
    ensures { state.new ≡ fold H.write state.old (param_input param.now) }
{
    state.write_u16(u16::from(param.0));
    param.1.hash(state);
}

/// Feeds parameters to a hasher: the same for those that are equal.
pub(crate) fn hash_params<H: Hasher>(params: &[(SvcParamKey, SvcParamValue)], state: &mut H)
    ensures { state.new ≡ fold H.write state.old (params_input params.now) }
{
    state.write_usize(params.len());
    'params: for param in params {
        feed_param(state, param);
    }
}
