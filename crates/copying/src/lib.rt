// What a turn copies before its first insertion: the types of a component's bounds of one kind, as ranks or as type words, out of the
// sorted keys of a table into a lent slice.
#![tactic(auto)]

ghost use Rattle.std.specs.Prelude.{◌≡◌, map, ℕ, ◌+◌, ◌≤◌, ◌<◌, length};
ghost use Rattle.std.proofs.Math.Seq.{paste};
ghost use Rattle.sorted.specs.Sorted.{Sorted};
ghost use Rattle.copying.specs.Copies.{Computes, run_in, ranks_in, words_in, evidence_in, uppers_in};

use keys::{KIND, key_type};

// What a component's bounds of one kind give, ascending, from `at` on; hands back the place after the last.
fn copy_run<F: Fn(u64) -> u64>(
    keys: &[u64],
    component: u64,
    kind: u64,
    out: &mut [u64],
    at: usize,
    of_key: F,
) -> usize
    ghost of: { ℕ → ℕ }
    requires { Sorted keys.now × (component < 512) × (kind < 8) × (at + length (run_in component kind keys.now) ≤ length out.old) × Computes (F.pre of_key) (F.post of_key) of }
    ensures { (result ≡ at + length (run_in component kind keys.now)) × (out.new ≡ paste out.old at (map of (run_in component kind keys.now)) (length (run_in component kind keys.now))) }
{
    let own = sorted::run(keys, keys.len(), KIND, component * 8 + kind);
    let mut end = at;
    for &key in &keys[own.first..own.past] {
        out[end] = of_key(key);
        end += 1;
    }
    end
}

// The ranks of a component's bounds of one kind, ascending, from `at` on; hands back the place after the last.
pub fn copy_ranks(keys: &[u64], component: u64, kind: u64, out: &mut [u64], at: usize) -> usize
    requires { Sorted keys.now × (component < 512) × (kind < 8) × (at + length (run_in component kind keys.now) ≤ length out.old) }
    ensures { (result ≡ at + length (run_in component kind keys.now)) × (out.new ≡ paste out.old at (ranks_in (run_in component kind keys.now)) (length (run_in component kind keys.now))) }
{
    copy_run(keys, component, kind, out, at, |key| key % KIND)
}

// The same as type words.
pub fn copy_words(keys: &[u64], component: u64, kind: u64, out: &mut [u64], at: usize) -> usize
    requires { Sorted keys.now × (component < 512) × (kind < 8) × (at + length (run_in component kind keys.now) ≤ length out.old) }
    ensures { (result ≡ at + length (run_in component kind keys.now)) × (out.new ≡ paste out.old at (words_in (run_in component kind keys.now)) (length (run_in component kind keys.now))) }
{
    copy_run(keys, component, kind, out, at, |key| key_type(key).word)
}

// The types that say what is produced, as words from the front on: the exact ones, or the lower ones where none is exact.
pub fn copy_evidence(keys: &[u64], component: u64, out: &mut [u64]) -> usize
    requires { Sorted keys.now × (component < 512) × (length keys.now ≤ length out.old) }
    ensures { (result ≡ length (evidence_in component keys.now)) × (out.new ≡ paste out.old 0 (words_in (evidence_in component keys.now)) (length (evidence_in component keys.now))) }
{
    let exact = copy_words(keys, component, 4, out, 0);
    if exact != 0 {
        return exact;
    }
    copy_words(keys, component, 3, out, 0)
}

// The types that go to the sources, as ranks from the front on: the upper ones, then the exact ones.
pub fn copy_uppers(keys: &[u64], component: u64, out: &mut [u64]) -> usize
    requires { Sorted keys.now × (component < 512) × (length keys.now ≤ length out.old) }
    ensures { (result ≡ length (uppers_in component keys.now)) × (out.new ≡ paste out.old 0 (ranks_in (uppers_in component keys.now)) (length (uppers_in component keys.now))) }
{
    let upper = copy_ranks(keys, component, 2, out, 0);
    copy_ranks(keys, component, 4, out, upper)
}
