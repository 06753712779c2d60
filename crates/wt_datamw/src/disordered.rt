//! Parameters whose names are not in byte order, or not distinct: they are put in order first.

ghost use Rattle.std.specs.Prelude.{◌≡◌, ◌++◌, IfOk, OnOk};
ghost use Rattle.serde_json.specs.View.{view, members_view};
ghost use Rattle.serde_json.specs.Data.{no_members};
ghost use Rattle.serde_json.specs.Written.{compact_text};
ghost use Rattle.wt_datamw.specs.Mw.{wt_data, params_data};

use serde_json::{Map, Value, json};
use std::alloc::{AllocError, Global};
use wt_devices::push;
use wt_span::{NoMemory, Str};

fn wt_value(alloc: Global, text: &Str) -> Result<Value, AllocError>
    ensures { IfOk result (λ v. view v ≡ wt_data text.now) }
{
    json!(in alloc; {"wt": text.as_str()})
}

/// Parameters as an object.
#[tactic(auto, unfolding(crate::specs::Mw::params_data))]
fn params_value(alloc: Global, params: &[(Str, Str)]) -> Result<Value, AllocError>
    ensures { IfOk result (λ v. view v ≡ params_data params.now) }
{
    let mut map = Map::new(alloc);
    for (name, text) in params {
        let value = wt_value(alloc, text)?;
        serde_json::put(&mut map, alloc, name.as_str(), value)?;
    }
    Ok(Value::Object(map))
}

/// The parameters of a transclusion. Of those with one name the last is written.
pub fn push_disordered_params(
    alloc: Global,
    out: &mut Vec<u8>,
    params: &[(Str, Str)],
) -> Result<(), NoMemory>
    ensures { OnOk result (out.new.items ≡ out.old.items ++ compact_text (params_data params.now)) }
{
    let value = params_value(alloc, params)?;
    let text = value.to_string(alloc)?;
    push(out, text.as_bytes())?;
    Ok(())
}
