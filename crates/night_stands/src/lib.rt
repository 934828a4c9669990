// Which FILEs of a night may be named so, by their bytes.
#![tactic(auto)]

ghost use Rattle.std.specs.Prelude.{◌≡◌};
ghost use Rattle.night_stands.specs.Standing.{byte_stands, may_stand};

#[tactic(auto, unfolding(crate::specs::Standing::byte_stands))]
fn byte_stands(b: u8) -> bool
    ensures { result ≡ byte_stands b }
{
    b >= 32 && b != b',' && b != b'"'
}

// Whether a FILE may be named so: a line of the tables has its bytes between two commas.
pub fn may_stand(path: &[u8]) -> bool
    ensures { result ≡ may_stand path.now }
{
    path.iter().all(|b| byte_stands(*b))
}
