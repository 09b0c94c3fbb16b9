// What every layer needs. specs/ has the definitions, proofs/ their laws.
#![tactic(auto)]

ghost use Rattle.std.specs.Prelude.{◌≡◌, ◌+◌, leb};

// Whether k bytes fit behind a place of n. No sum is made, so any numbers may be given.
pub fn has_room(at: usize, k: usize, n: usize) -> bool
    ensures { result ≡ leb (at + k) n }
{
    at <= n && k <= n - at
}
