// The final bounds of a solve as three columns: each key's component, kind and type word, at the front of the lent slices.
#![tactic(auto)]

ghost use Rattle.std.specs.Prelude.{◌≤◌, length};
ghost use Rattle.columnsout.specs.Columns.{Written};

use keys::{key_component, key_kind, key_type};

// What stands past the columns stays.
pub fn write_columns(keys: &[u64], out_comp: &mut [u64], out_kind: &mut [u64], out_type: &mut [u64])
    requires { (length keys.now ≤ length out_comp.old) × (length keys.now ≤ length out_kind.old) × (length keys.now ≤ length out_type.old) }
    ensures { Written keys.now out_comp.old out_kind.old out_type.old out_comp.new out_kind.new out_type.new }
{
    for (i, &key) in keys.iter().enumerate() {
        let component = key_component(key);
        let kind = key_kind(key);
        let t = key_type(key);
        out_comp[i] = component;
        out_kind[i] = kind;
        out_type[i] = t.word;
    }
}
