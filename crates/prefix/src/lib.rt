// The 12 bytes with which every message begins.
#![tactic(auto)]

ghost use Rattle.std.specs.Prelude.{◌≡◌};
ghost use Rattle.draft.specs.Read.{prefix, agree};

// Whether a message begins as all do, as far as it goes.
pub fn agrees(s: &[u8]) -> bool
    ensures { result ≡ agree s.now prefix }
{
    let n = s.len().min(12);
    &s[..n] == &b"binmode-rpc:"[..n]
}
